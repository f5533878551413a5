//! What layers above may rely on, for every card and every lexicon.
ghost use Rattle.reader.specs.Promises.{AlwaysPromises};

/// Cards that are written are read as they were, damage is noticed, and what is read is a card: for cards and lexicons that no
/// call has at hand. It computes nothing.
pub fn promises()
    ensures { AlwaysPromises }
{}

//! The word file: a lexicon that the caller brings as bytes.
ghost use Rattle.std.specs.Prelude.{◌≡◌, true, length, None};
ghost use Rattle.lexicon.specs.WordOrder.{in_order};

use crate::word::Word;

mod loading;
mod lookup;

/// The words of a file that was accepted.
#[derive(Drop)]
pub struct WordFile {
    words: [Word; 1024],
    ghost count: { length words ≡ 1024 },
    ghost sorted: { in_order None words ≡ true },
}

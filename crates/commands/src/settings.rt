//! The program's arguments.
ghost use Rattle.std.specs.Prelude.{◌≡◌};
ghost use Rattle.commands.specs.Settings.{chosen, suite_of, lexicon_of};

/// The words that cards are written in.
// No `Option` of a path: neither case is absent, and each name tells what it means.
#[derive(Clone, Copy)]
pub enum LexiconChoice<'a> {
    /// The four digits of each index.
    Numbers,
    /// The words of the file at this path.
    WordFile(&'a str),
}

/// The keyed digest and the round function that secrets are dealt and opened with.
#[derive(Clone, Copy)]
pub enum Suite {
    /// HMAC-SHA-256, and stretching over it.
    Shop,
    /// The two drill functions, which hide nothing.
    Drill,
}

/// The lexicon that the first argument names.
pub fn lexicon_named(name: &str) -> LexiconChoice<'_>
    ensures { chosen result ≡ lexicon_of name.now }
{
    match name {
        "numbers" => LexiconChoice::Numbers,
        path => LexiconChoice::WordFile(path),
    }
}

/// The suite that the second argument names.
// Not `FromStr`: there is nothing to say of a name that there is not.
pub fn suite_named(name: &str) -> Option<Suite>
    ensures { result ≡ suite_of name.now }
{
    match name {
        "shop" => Some(Suite::Shop),
        "drill" => Some(Suite::Drill),
        _ => None,
    }
}

//! Words by their number.
ghost use Rattle.std.specs.Prelude.{◌<◌, ◌≤◌};
ghost use Rattle.std.proofs.Common.{rules};

use crate::{Number, in_range};

/// A word's place in a lexicon, from 0.
#[derive(Clone, Copy, PartialEq, Eq, Debug)]
pub struct WordIndex {
    pub value: u16,
    ghost bound: { value < 1024 },
}

impl Number for WordIndex {
    const LEAST: u16 = 0;

    const MOST: u16 = 1023;

    ghost LEAST = { 0 };

    ghost MOST = { 1023 };

    ghost number = { λ n. n.value };

    ghost fits = { Prim.search rules };

    ghost in_range = { Prim.search rules };

    fn new(value: u16) -> Option<WordIndex> {
        let value = in_range(value, Self::LEAST, Self::MOST)?;
        Some(WordIndex { value })
    }

    fn get(self) -> u16 {
        self.value
    }
}

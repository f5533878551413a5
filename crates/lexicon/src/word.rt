//! A word of a lexicon, as a value.
ghost use Rattle.std.specs.Prelude.{◌≡◌, ℕ, List, ◌≤◌, length, take};

use memory::Bytes;
use std::marker::Model;

/// Up to eight bytes. A clause sees the list of them.
#[derive(Clone, Copy, Debug)]
pub struct Word {
    bytes: Bytes<8>,
}

impl Model for Word {
    ghost Value = { List ℕ };

    ghost view = { λ w. w.bytes };

    ghost invariant = { λ w. length w.bytes ≤ 8 };

    ghost inverse = { λ list. record { bytes = list } };
}

impl Word {
    /// The first `length` of the bytes, or all eight.
    pub fn new(bytes: [u8; 8], length: usize) -> Word
        ensures { result ≡ take length bytes }
    {
        Word {
            bytes: Bytes::new(bytes, length),
        }
    }

    /// The word of these bytes.
    pub(crate) fn of(letters: &[u8]) -> Word
        requires { length letters.now ≤ 8 }
        ensures { result ≡ letters.now }
    {
        Word {
            bytes: Bytes::from_slice(letters),
        }
    }

    pub fn bytes(&self) -> &[u8]
        ensures bytes { result.now ≡ self.now }
        ensures fits { length result.now ≤ 8 }
    {
        self.bytes.as_slice()
    }
}

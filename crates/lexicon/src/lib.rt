//! A lexicon names each index from 0 to 1,023 by one word.
#![tactic(auto)]

ghost use Rattle.std.specs.Prelude.{◌≡◌, ℕ, List, [], slice_index_or};
ghost use Rattle.lexicon.specs.Lexicon.{Lawful, index_of, found};

use crate::word::Word;
use numbers::WordIndex;

pub mod number_lexicon;
pub mod word;
pub mod word_file;

/// Its meaning is the list of its 1,024 words, which no call alters.
pub trait Lexicon {
    ghost words: { Self → List (List ℕ) };

    /// The word of an index.
    fn word(&self, index: WordIndex) -> Word
        ensures { result ≡ slice_index_or (words self.now) index.value [] };

    /// The only index whose word begins with the bytes, or none.
    fn find(&self, bytes: &[u8]) -> Option<WordIndex>
        ensures { found result ≡ index_of (words self.now) bytes.now };

    ghost lawful: { (s : Self) → Lawful (words s) };
}

//! Looking words up, which stand in byte order.
ghost use Rattle.std.specs.Prelude.{◌≡◌, ℕ, ◌<◌, ◌≤◌, true, false, ◌&&◌, [], nat_lt, slice_index_or};
ghost use Rattle.lexicon.specs.ByteOrder.{comes_before};
ghost use Rattle.lexicon.specs.Lexicon.{begins_with};
ghost use Rattle.lexicon.specs.WordFileWords;

use super::WordFile;
use crate::Lexicon;
use crate::word::Word;
use numbers::{Number, WordIndex};

impl WordFile {
    /// How many words come before the bytes.
    fn count_before(&self, bytes: &[u8]) -> usize
        ensures bound { result ≤ 1024 }
        ensures before { (k : ℕ) → k < result → comes_before (slice_index_or self.now.words k []) bytes.now ≡ true }
        ensures after { (k : ℕ) → result ≤ k → k < 1024 → comes_before (slice_index_or self.now.words k []) bytes.now ≡ false }
    {
        self.words.partition_point(|word| word.bytes() < bytes)
    }

    /// Whether there is a word of that index that begins with the bytes.
    fn begins_at(&self, index: usize, bytes: &[u8]) -> bool
        ensures { result ≡ (nat_lt index 1024 && begins_with (slice_index_or self.now.words index []) bytes.now) }
    {
        self.words
            .get(index)
            .is_some_and(|word| word.bytes().starts_with(bytes))
    }
}

impl Lexicon for WordFile {
    ghost words = { λ f. f.words };

    ghost lawful = { λ s. WordFileWords.lawful s.words s.count s.sorted };

    fn word(&self, index: WordIndex) -> Word {
        self.words[usize::from(index.value)]
    }

    /// The words that begin with the bytes stand in a row, from the first that does not come before them.
    fn find(&self, bytes: &[u8]) -> Option<WordIndex> {
        let first = self.count_before(bytes);
        if self.begins_at(first, bytes) && !self.begins_at(first + 1, bytes) {
            WordIndex::new(first as u16)
        } else {
            None
        }
    }
}

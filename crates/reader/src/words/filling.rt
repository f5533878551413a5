//! Filling the words of a line, one after the other.
ghost use Rattle.std.specs.Prelude.{◌≡◌, ℕ, ◌+◌, ◌^◌, ◌<◌, List, [], ◌∷◌, ◌++◌, length, take, None, MatchOption};
ghost use Rattle.reader.specs.Words.{Holds};

use super::Words;
use field::Field;
use field::gf1024::Gf1024;
use numbers::WordIndex;

impl Words {
    pub(crate) fn none() -> Words
        ensures { Holds result [] }
    {
        Words {
            elements: [Gf1024::zero(); 59],
            count: 0,
        }
    }

    pub(crate) fn push(&mut self, index: WordIndex)
        requires { self.old.count + 1 < 2 ^ 64 }
        ensures holds { (ws : List ℕ) → Holds self.old ws → Holds self.new (ws ++ (index.value ∷ [])) }
        ensures counts { self.new.count ≡ self.old.count + 1 }
    {
        if self.count < 59 {
            let element = Gf1024::try_from(index.value).unwrap();
            self.elements[self.count] = element;
        }
        self.count += 1;
    }

    /// All the words, if there are no more than are kept.
    pub(crate) fn all(&self) -> Option<&[Gf1024]>
        ensures { MatchOption result (59 < self.now.count) (λ all. (length all.now ≡ self.now.count) × (all.now ≡ take self.now.count self.now.elements)) }
    {
        self.elements.get(..self.count)
    }
}

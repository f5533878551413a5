//! The number lexicon: an index is written as four decimal digits, 0000 to 1023.
ghost use Rattle.std.specs.Prelude.{◌≡◌, ℕ, ◌+◌, ◌<◌, List, [], MatchOption, ◌≢◌};
ghost use Rattle.lexicon.specs.NumberWords.{digits, numbered};
ghost use Rattle.lexicon.specs.NumberWordsLemmas as NumberWords;

use crate::Lexicon;
use crate::word::Word;
use numbers::{Number, WordIndex};

#[derive(Clone, Copy, Debug)]
pub struct NumberLexicon;

fn digit(value: u16) -> u8
    requires { value < 10 }
    ensures { result ≡ 48 + value }
{
    b'0' + value as u8
}

fn digit_value(byte: u8) -> Option<u16>
    ensures { MatchOption result ((n : ℕ) → n < 10 → byte ≢ 48 + n) (λ n. (n < 10) × (byte ≡ 48 + n)) }
{
    Some((byte as char).to_digit(10)? as u16)
}

/// The number that four digits write.
fn decimal(bytes: &[u8]) -> Option<u16>
    ensures { MatchOption result ((n : ℕ) → n < 10000 → bytes.now ≢ digits n) (λ n. (n < 10000) × (bytes.now ≡ digits n)) }
{
    let &[thousands, hundreds, tens, ones] = bytes else {
        return None;
    };
    Some(
        digit_value(thousands)? * 1000
            + digit_value(hundreds)? * 100
            + digit_value(tens)? * 10
            + digit_value(ones)?,
    )
}

impl Lexicon for NumberLexicon {
    ghost words = { λ _. numbered 1024 };

    ghost lawful = { λ s. NumberWords.lawful };

    fn word(&self, index: WordIndex) -> Word {
        let n = index.value;
        // Written out as `digits` is: over an array of powers of ten it is no plainer.
        Word::of(&[
            digit(n / 1000),
            digit(n / 100 % 10),
            digit(n / 10 % 10),
            digit(n % 10),
        ])
    }

    fn find(&self, bytes: &[u8]) -> Option<WordIndex> {
        WordIndex::new(decimal(bytes)?)
    }
}

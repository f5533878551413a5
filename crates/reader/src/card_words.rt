//! The words of a card, from which its fields are read.
ghost use Rattle.std.specs.Prelude.{◌≡◌, ◌+◌, ◌*◌, ◌%◌, ◌^◌, ◌≤◌, true, false, length, take, None, MatchOption};
ghost use Rattle.reader.specs.Bits.{bits_at};
ghost use Rattle.checksum.specs.Values.{values};
ghost use Rattle.reader.specs.Reading.{bytes_at, count_fits, fields_in, checked_fields, checked_words, meant, padding_bits, value_length};

use crate::bits::bits_at;
use crate::card::Card;
use crate::card_parts::CardParts;
use crate::value::Value;
use checksum::is_right;
use field::gf1024::Gf1024;
use numbers::Number;
use refusal::Refusal;

/// As many words as a card may have.
#[derive(Clone, Copy)]
pub(crate) struct CardWords<'a> {
    words: &'a [Gf1024],
    ghost fits: { count_fits (length words.now) ≡ true },
}

/// Whether a card may have that many words.
fn count_fits(words: usize) -> bool
    ensures { result ≡ count_fits words }
{
    (20..=59).contains(&words) && 10 * (words - 7) % 16 <= 8
}

impl<'a> CardWords<'a> {
    /// The words, if a card may have that many.
    pub(crate) fn new(words: &'a [Gf1024]) -> Option<CardWords<'a>>
        ensures { MatchOption result (count_fits (length words.now) ≡ false) (λ card. card.words.now ≡ words.now) }
    {
        // Not `then`: what a closure makes would have to prove its ghost field without the test.
        if count_fits(words.len()) {
            Some(CardWords { words })
        } else {
            None
        }
    }

    /// The number that `count` bits of the first four words write: 0 stands for the least.
    fn number<N: Number>(&self, from: usize, count: u32) -> N
        requires early { from + count ≤ 40 }
        requires narrow { from % 10 + count ≤ 20 }
        requires fits { 2 ^ count + N.LEAST ≤ N.MOST + 1 }
        ensures { N.number result ≡ bits_at (values self.now.words.now) from count + N.LEAST }
    {
        N::new(bits_at(self.words, from, count) as u16 + N::LEAST).unwrap()
    }

    fn extendable(&self) -> bool
        ensures { result ≡ (fields_in (values self.now.words.now)).extendable }
    {
        bits_at(self.words, 15, 1) == 1
    }

    /// How many bits pad the value.
    fn padding(&self) -> usize
        ensures { result ≡ padding_bits (length self.now.words.now) }
    {
        10 * (self.words.len() - 7) % 16
    }

    /// Fills `bytes` with those after the first `from` bits.
    fn fill_bytes(&self, from: usize, bytes: &mut [u8])
        requires { from + 8 * length bytes.old + 30 ≤ 10 * length self.now.words.now }
        ensures { bytes.new ≡ bytes_at (values self.now.words.now) from (length bytes.old) }
    {
        for (k, byte) in bytes.iter_mut().enumerate() {
            *byte = bits_at(self.words, from + 8 * k, 8) as u8;
        }
    }

    /// The first `count` bytes are those after the first `from` bits.
    fn bytes_at(&self, from: usize, count: usize) -> [u8; 64]
        requires room { (count ≤ 64) × (from ≤ 48) }
        requires inside { from + 8 * count + 30 ≤ 10 * length self.now.words.now }
        ensures { take count result ≡ bytes_at (values self.now.words.now) from count }
    {
        let mut bytes = [0; 64];
        self.fill_bytes(from, &mut bytes[..count]);
        bytes
    }

    fn value(&self) -> Value
        ensures { result.bytes ≡ bytes_at (values self.now.words.now) (40 + padding_bits (length self.now.words.now)) (value_length (length self.now.words.now)) }
    {
        let count = 10 * (self.words.len() - 7) / 16 * 2;
        Value::new(self.bytes_at(40 + self.padding(), count), count).unwrap()
    }

    /// The fields, if their groups and members fit.
    fn fields(&self) -> Result<Card, Refusal>
        ensures { meant result ≡ checked_fields (fields_in (values self.now.words.now)) }
    {
        Card::try_from(CardParts {
            identifier: self.number(0, 15),
            extendable: self.extendable(),
            exponent: self.number(16, 4),
            group: self.number(20, 4),
            group_threshold: self.number(24, 4),
            group_count: self.number(28, 4),
            member: self.number(32, 4),
            member_threshold: self.number(36, 4),
            value: self.value(),
        })
    }

    /// The card that the words say.
    pub(crate) fn card(&self) -> Result<Card, Refusal>
        ensures { meant result ≡ checked_words (values self.now.words.now) }
    {
        if !is_right(self.extendable(), self.words) {
            return Err(Refusal::WrongChecksum);
        }
        if bits_at(self.words, 40, self.padding() as u32) != 0 {
            return Err(Refusal::PaddingNotZero);
        }
        self.fields()
    }
}

//! From a card's fields to its words.
ghost use Rattle.std.specs.Prelude.{◌≡◌, ℕ, ◌+◌, ◌-◌, ◌*◌, ◌/◌, ◌%◌, ◌^◌, ◌<◌, ◌≤◌, List, ◌∷◌, ◌++◌, length, slice_index};
ghost use Rattle.std.specs.Int.Digits.{number_from_digits};
ghost use Rattle.reader.specs.Card.{fields_of};
ghost use Rattle.reader.specs.Words.{Holds};
ghost use Rattle.reader.specs.Writing.{header_number, words_for, value_words, data_words, words_of};

use crate::card::Card;
use crate::words::Words;
use checksum::check_words;
use field::gf1024::Gf1024;
use numbers::{Number, WordIndex};

/// What is written of a number: how far it is above the least.
fn above_least<N: Number>(number: N) -> u64
    ensures value { result ≡ N.number number - N.LEAST }
    ensures bound { result + N.LEAST ≤ N.MOST }
{
    u64::from(number.get() - N::LEAST)
}

/// The fields before the value, in forty bits.
fn header_number(card: &Card) -> u64
    ensures value { result ≡ header_number (fields_of card.now) }
    ensures bound { result < 2 ^ 40 }
{
    let parts = &card.parts;
    let flag = u64::from(parts.extendable);
    let deal = (above_least(parts.identifier) * 2 + flag) * 16 + above_least(parts.exponent);
    let group = (deal * 16 + above_least(parts.group)) * 16 + above_least(parts.group_threshold);
    let member = (group * 16 + above_least(parts.group_count)) * 16 + above_least(parts.member);
    member * 16 + above_least(parts.member_threshold)
}

/// The ten bits of a number that end `after` bits before its end.
fn ten_bits(number: u64, after: u32) -> WordIndex
    requires { after < 64 }
    ensures { result.value ≡ number / 2 ^ after % 1024 }
{
    WordIndex::new(((number >> after) % 1024) as u16).unwrap()
}

/// The byte at `i` of the value with one zero byte before it.
fn byte_after_zero(value: &[u8], i: usize) -> u32
    requires { i ≤ length value.now }
    ensures value { result ≡ slice_index (0 ∷ value.now) i }
    ensures bound { result < 256 }
{
    if i == 0 { 0 } else { u32::from(value[i - 1]) }
}

/// The ten bits of the value that end `after` bits before its end, with zero bits before the value.
fn value_word(value: &[u8], after: usize) -> WordIndex
    requires even { after % 2 ≡ 0 }
    requires inside { after + 2 ≤ 8 * length value.now }
    requires short { length value.now ≤ 64 }
    ensures { result.value ≡ number_from_digits 256 value.now / 2 ^ after % 1024 }
{
    let from = 8 * value.len() - 2 - after;
    let high = byte_after_zero(value, from / 8);
    let low = byte_after_zero(value, from / 8 + 1);
    let pair = high * 256 + low;
    WordIndex::new(((pair >> (6 - from % 8)) % 1024) as u16).unwrap()
}

// No `From`: both types are of other crates.
pub(crate) fn index_of(element: Gf1024) -> WordIndex
    ensures { result.value ≡ element.value }
{
    WordIndex::new(element.into()).unwrap()
}

fn header_words(card: &Card) -> Words
    ensures { Holds result (words_for 4 (header_number (fields_of card.now))) }
{
    let number = header_number(card);
    let mut words = Words::none();
    for after in [30, 20, 10, 0] {
        words.push(ten_bits(number, after));
    }
    words
}

/// The words before the check words.
fn data_words(card: &Card) -> Words
    ensures holds { Holds result (data_words (fields_of card.now)) }
    ensures few { result.count ≤ 56 }
{
    let mut words = header_words(card);
    let value = card.parts.value.bytes();
    let count = (8 * value.len()).div_ceil(10);
    // From the high bits down: k tells how many tens of bits are left.
    for k in (0..count).rev() {
        words.push(value_word(value, 10 * k));
    }
    words
}

/// The card's words.
pub(crate) fn encode(card: &Card) -> Words
    ensures holds { Holds result (words_of (fields_of card.now)) }
    ensures few { result.count ≤ 59 }
{
    let mut words = data_words(card);
    let check = check_words(card.parts.extendable, words.all().unwrap());
    for element in check {
        words.push(index_of(element));
    }
    words
}

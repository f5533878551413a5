//! The bits of a card's words: ten a word, the high bit first.
ghost use Rattle.std.specs.Prelude.{◌≡◌, ◌+◌, ◌/◌, ◌%◌, ◌^◌, ◌<◌, ◌≤◌, length};
ghost use Rattle.reader.specs.Bits.{bits_at};
ghost use Rattle.checksum.specs.Values.{values};

use field::gf1024::Gf1024;

/// The number that `count` bits write after the first `from`, all of them in two words.
pub(crate) fn bits_at(words: &[Gf1024], from: usize, count: u32) -> u32
    requires inside { from / 10 + 1 < length words.now }
    requires narrow { from % 10 + count ≤ 20 }
    ensures value { result ≡ bits_at (values words.now) from count }
    ensures bound { result < 2 ^ count }
{
    let high = u16::from(words[from / 10]);
    let low = u16::from(words[from / 10 + 1]);
    let pair = u32::from(high) * 1024 + u32::from(low);
    let after = 20 - (from % 10) as u32 - count;
    (pair >> after) % (1 << count)
}

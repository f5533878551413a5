//! Shares, whose values stay in the caller's memory.
ghost use Rattle.std.specs.Prelude.{◌≡◌, ◌<◌, length, slice_index};
ghost use Rattle.digest.specs.Keyed.{Bytes};
ghost use Rattle.field.specs.Gf256.{element};
ghost use Rattle.sharing.specs.Props.{bytes_prop};

use field::gf256::Gf256;
use field::interpolation::Point;

/// A share of a curve: a place, and the value there, which is lent and not copied.
#[derive(Clone, Copy)]
pub struct Share<'a> {
    pub x: u8,
    pub value: &'a [u8],
    ghost place: { x < 256 },
    ghost bytes: { Bytes value.now } by { bytes_prop value.now },
}

impl<'a> Share<'a> {
    /// The share with this value at `x`.
    pub fn new(x: u8, value: &'a [u8]) -> Share<'a>
        ensures place { result.x ≡ x }
        ensures value { result.value.now ≡ value.entry.now }
    {
        Share { x, value }
    }

    // The point at byte position `j`.
    pub(crate) fn point(&self, j: usize) -> Point<Gf256>
        requires { j < length self.now.value.now }
        ensures { result ≡ record { x = element self.now.x; y = element (slice_index self.now.value.now j) } }
    {
        Point {
            x: Gf256::from(self.x),
            y: Gf256::from(self.value[j]),
        }
    }
}

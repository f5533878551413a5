ghost use Rattle.std.specs.Prelude.{◌≡◌, ◌<◌};
ghost use Rattle.field.specs.Gf256.{element as element_of, bits as bits_of};
ghost use Rattle.field.specs.Gf256Laws;

use super::Gf256;
use super::tables::{logarithm, power};
use crate::binary::Binary;

/// Products by logarithms, modulo x^8 + x^4 + x^3 + x + 1, whose lower terms are 27.
impl Binary for Gf256 {
    ghost degree = { 8 };

    ghost rest = { 27 };

    ghost element = { element_of };

    ghost bits = { bits_of };

    ghost represented = { Gf256Laws.represented };

    fn from_bits(value: u16) -> Gf256 {
        Gf256 { value: value as u8 }
    }

    fn to_bits(self) -> u16 {
        u16::from(self.value)
    }

    /// The power of 3 whose logarithm is the sum, modulo 255.
    fn multiply(a: u16, b: u16) -> u16 {
        if a == 0 || b == 0 {
            0
        } else {
            power((logarithm(a) + logarithm(b)) % 255)
        }
    }

    /// The power of 3 whose logarithm is the negative, modulo 255.
    fn invert(a: u16) -> u16 {
        power((255 - logarithm(a)) % 255)
    }
}

ghost use Rattle.std.specs.Prelude.{◌≡◌, ◌<◌};
ghost use Rattle.field.specs.Gf1024.{element as element_of, bits as bits_of, inverted};
ghost use Rattle.field.specs.Gf1024Laws;

use super::Gf1024;
use crate::binary::Binary;

/// Products bit by bit, modulo x^10 + x^3 + 1, whose lower terms are 9.
impl Binary for Gf1024 {
    ghost degree = { 10 };

    ghost rest = { 9 };

    ghost element = { element_of };

    ghost bits = { bits_of };

    ghost represented = { Gf1024Laws.represented };

    fn from_bits(value: u16) -> Gf1024 {
        Gf1024 { value }
    }

    fn to_bits(self) -> u16 {
        self.value
    }

    /// From the highest bit of `b` down.
    fn multiply(a: u16, b: u16) -> u16 {
        let mut product: u16 = 0;
        // The count is a bit's place.
        for i in (0u32..10).rev() {
            let doubled = product * 2;
            // x^10 is x^3 + 1, which is 9.
            let shifted = (doubled % 1024) ^ (doubled / 1024 % 2 * 9);
            product = ((b >> i) % 2 * a) ^ shifted;
        }
        product
    }

    /// a^1022, which is a^2 · a^4 · .. · a^512.
    // It asks less than the trait, as 0 has this power too.
    fn invert(a: u16) -> u16
        requires { a < 1024 }
        ensures value { result ≡ inverted a }
        ensures small { result < 1024 }
    {
        let mut square = a;
        let mut power = 1;
        // As many rounds as there are squares, and both numbers change: a fold would carry them as a pair.
        for _ in 0u32..9 {
            square = Gf1024::multiply(square, square);
            power = Gf1024::multiply(power, square);
        }
        power
    }
}

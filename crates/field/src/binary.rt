ghost use Rattle.std.specs.Prelude.{◌≡◌, ℕ, ◌^◌, ◌<◌};
ghost use Rattle.field.specs.CarryLess.{IsRepresented, product_modulo, inverted, sum as sum_of, product as product_of, inverse as inverse_of};
ghost use Rattle.field.specs.CarryLessField as CarryLessField;

use crate::Field;

/// An element that is a polynomial over two values, of a degree below `degree`: bit k of its bits is the coefficient of x^k.
/// Products are taken modulo x^degree + `rest`, and each type computes them in its own way.
pub trait Binary: Copy {
    ghost degree: { ℕ };

    ghost rest: { ℕ };

    ghost element: { ℕ → Self };

    ghost bits: { Self → ℕ };

    /// The element with these bits.
    // Not `From`, which has no `requires`.
    fn from_bits(value: u16) -> Self
        requires { value < 2 ^ degree }
        ensures { bits result ≡ value };

    /// The element's bits.
    fn to_bits(self) -> u16
        ensures value { result ≡ bits self }
        ensures small { result < 2 ^ degree };

    /// The bits of the product.
    fn multiply(a: u16, b: u16) -> u16
        requires a { a < 2 ^ degree }
        requires b { b < 2 ^ degree }
        ensures value { result ≡ product_modulo degree rest a b }
        ensures small { result < 2 ^ degree };

    /// The bits of the inverse.
    fn invert(a: u16) -> u16
        requires not_zero { 0 < a }
        requires a { a < 2 ^ degree }
        ensures value { result ≡ inverted degree rest a }
        ensures small { result < 2 ^ degree };

    ghost represented: { IsRepresented degree rest element bits };
}

/// Such polynomials are a field.
impl<B: Binary> Field for B {
    ghost zero = { B.element 0 };

    ghost one = { B.element 1 };

    ghost sum = { sum_of B.element B.bits };

    ghost product = { product_of B.degree B.rest B.element B.bits };

    ghost inverse = { inverse_of B.degree B.rest B.element B.bits };

    ghost laws = { CarryLessField.laws B.represented };

    fn zero() -> B {
        B::from_bits(0)
    }

    fn one() -> B {
        B::from_bits(1)
    }

    fn plus(self, other: B) -> B {
        B::from_bits(self.to_bits() ^ other.to_bits())
    }

    fn times(self, other: B) -> B {
        B::from_bits(B::multiply(self.to_bits(), other.to_bits()))
    }

    fn inverse(self) -> Option<B> {
        let bits = self.to_bits();
        if bits == 0 {
            None
        } else {
            Some(B::from_bits(B::invert(bits)))
        }
    }
}

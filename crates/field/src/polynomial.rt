ghost use Rattle.std.specs.Prelude.{◌≡◌, ◌∷◌};
ghost use Rattle.field.specs.Polynomial.{value_at};

use crate::Field;

/// The value at `x` of the polynomial whose coefficients, the highest first, are `first` and then `coefficients`.
pub fn evaluate<F: Field>(x: F, first: F, coefficients: &[F]) -> F
    ensures { result ≡ value_at F.zero F.one F.sum F.product x (first ∷ coefficients.now) }
{
    // Horner's rule.
    coefficients
        .iter()
        .fold(first, |value, c| c.plus(x.times(value)))
}

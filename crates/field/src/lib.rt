//! Fields in which each element is its own negative, polynomials over them, interpolation, and the fields of 256 and of 1,024 elements.
#![tactic(auto)]

ghost use Rattle.std.specs.Prelude.{◌≡◌, Option as Maybe};
ghost use Rattle.field.specs.Laws.{Laws};

/// Fields of polynomials over two values.
// Private: its functions ask that bits lie below 2^degree, which no public function asks.
mod binary;
/// The field of 256 elements.
pub mod gf256;
/// The field of 1,024 elements.
pub mod gf1024;
/// The polynomial through given points, over any field.
pub mod interpolation;
/// Polynomials over any field.
pub mod polynomial;

/// A field in which each element is its own negative: `laws` is what each `impl` must prove.
pub trait Field: Copy {
    ghost zero: { Self };

    ghost one: { Self };

    ghost sum: { Self → Self → Self };

    ghost product: { Self → Self → Self };

    ghost inverse: { Self → Maybe Self };

    /// 0, which changes no sum.
    fn zero() -> Self
        ensures { result ≡ zero };

    /// 1, which changes no product.
    fn one() -> Self
        ensures { result ≡ one };

    /// The sum, which is also the difference.
    fn plus(self, other: Self) -> Self
        ensures { result ≡ sum self other };

    /// The product.
    fn times(self, other: Self) -> Self
        ensures { result ≡ product self other };

    /// The element that gives 1 when multiplied with this one. 0 has none.
    fn inverse(self) -> Option<Self>
        ensures { result ≡ inverse self };

    ghost laws: { Laws zero one sum product inverse };
}

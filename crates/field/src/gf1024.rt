ghost use Rattle.std.specs.Prelude.{◌<◌};

mod conversions;
/// Sums, products and inverses.
pub mod operations;

pub use conversions::NotBelow1024;

/// An element of the field of 1,024 elements: a polynomial over two values, modulo x^10 + x^3 + 1.
/// Bit k of its value is the coefficient of x^k.
// Not one generic struct with `Gf256`: the raw type and the bound differ.
#[derive(Clone, Copy, PartialEq, Eq, Debug)]
pub struct Gf1024 {
    value: u16,
    ghost bound: { value < 1024 },
}

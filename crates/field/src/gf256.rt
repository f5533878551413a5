ghost use Rattle.std.specs.Prelude.{◌<◌};

mod conversions;
/// Sums, products and inverses.
pub mod operations;
mod tables;

/// An element of the field of 256 elements: a polynomial over two values, modulo x^8 + x^4 + x^3 + x + 1.
/// Bit k of its value is the coefficient of x^k.
// Not one generic struct with `Gf1024`: the raw type and the bound differ.
#[derive(Clone, Copy, PartialEq, Eq, Debug)]
pub struct Gf256 {
    value: u8,
    ghost bound: { value < 256 },
}

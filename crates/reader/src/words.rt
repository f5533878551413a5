//! The words of a line, as elements of the field that the checksum is over.
ghost use Rattle.std.specs.Prelude.{◌≡◌, length};

use field::gf1024::Gf1024;

pub(crate) mod filling;

/// The first 59 words, and how many there are in all.
// The count goes on past 59, since a refusal names it: an `ArrayVec` would need it beside its own length all the same.
#[derive(Clone, Copy)]
pub struct Words {
    pub(crate) elements: [Gf1024; 59],
    pub(crate) count: usize,
    ghost size: { length elements ≡ 59 },
}

ghost use Rattle.std.specs.Prelude.{◌≡◌};
ghost use Rattle.field.specs.Gf256.{element as element_of};

use super::Gf256;

/// The element with this value.
impl From<u8> for Gf256 {
    ghost from_gives = { λ byte element. (element.value ≡ byte) × (element ≡ element_of byte) };

    fn from(value: u8) -> Gf256 {
        Gf256 { value }
    }
}

/// The element's value.
impl From<Gf256> for u8 {
    ghost from_gives = { λ element byte. byte ≡ element.value };

    fn from(element: Gf256) -> u8 {
        element.value
    }
}

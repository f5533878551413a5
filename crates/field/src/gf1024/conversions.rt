ghost use Rattle.std.specs.Prelude.{◌≡◌, ◌≤◌, MatchResult};
ghost use Rattle.field.specs.Gf1024.{element as element_of};

use super::Gf1024;

/// Why a number is no element's value.
#[derive(Clone, Copy, PartialEq, Eq, Debug)]
pub struct NotBelow1024;

/// The element with the value of a byte.
impl From<u8> for Gf1024 {
    ghost from_gives = { λ byte element. (element.value ≡ byte) × (element ≡ element_of byte) };

    fn from(value: u8) -> Gf1024 {
        Gf1024 {
            value: u16::from(value),
        }
    }
}

/// The element with this value, where it is below 1,024.
impl TryFrom<u16> for Gf1024 {
    type Error = NotBelow1024;

    ghost try_from_gives = { λ number result. MatchResult result (λ element. (element.value ≡ number) × (element ≡ element_of number)) (λ _. 1024 ≤ number) };

    fn try_from(value: u16) -> Result<Gf1024, NotBelow1024> {
        if value < 1024 {
            Ok(Gf1024 { value })
        } else {
            Err(NotBelow1024)
        }
    }
}

/// The element's value, below 1,024.
impl From<Gf1024> for u16 {
    ghost from_gives = { λ element number. number ≡ element.value };

    fn from(element: Gf1024) -> u16 {
        element.value
    }
}

//! Stretching as a C caller wants it; the crate cipher_c exports it over two digests.
ghost use Rattle.std.specs.Prelude.{◌≡◌, ◌++◌, length, drop, if◌then◌else◌};
ghost use Rattle.cipher.specs.Stretching.{stretched};
ghost use Rattle.cipher.specs.Exports.{applies};

use crate::round::RoundFunction;
use crate::stretching::Stretching;
use digest::KeyedDigest;
use numbers::{Exponent, Identifier, Number, Parameters, RoundNumber};

/// Stretching for a C caller, which can pass any number: writes to the front of `out` and answers true; false, with nothing
/// written, if a number is out of range or the input is refused.
// Bare numbers and a `bool`, since C calls it so.
pub fn stretch_for_c<D: KeyedDigest + Copy>(
    digest: &D,
    round: u8,
    passphrase: &[u8],
    identifier: u16,
    extendable: bool,
    exponent: u8,
    half: &[u8],
    out: &mut [u8],
) -> bool
    ensures answer { result ≡ applies round passphrase.now identifier exponent half.now out.old }
    ensures writes { out.new ≡ (if result then stretched D.keyed D.size round passphrase.now identifier extendable exponent half.now ++ drop (length half.now) out.old else out.old) }
{
    let (Some(round), Some(identifier), Some(exponent)) = (
        RoundNumber::new(u16::from(round)),
        Identifier::new(identifier),
        Exponent::new(u16::from(exponent)),
    ) else {
        return false;
    };
    let parameters = Parameters {
        identifier,
        extendable,
        exponent,
    };
    Stretching { digest: *digest }
        .apply(round, passphrase, parameters, half, out)
        .is_ok()
}

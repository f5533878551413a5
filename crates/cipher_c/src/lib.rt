//! Stretching for a C caller, over two digests.
#![tactic(auto)]

ghost use Rattle.std.specs.Prelude.{◌≡◌, ◌++◌, length, drop, if◌then◌else◌};
ghost use Rattle.digest.specs.Drill.{drill_digest};
ghost use Rattle.digest.specs.Hmac.{hmac};
ghost use Rattle.digest.specs.Sha256.{sha256};
ghost use Rattle.cipher.specs.Stretching.{stretched};
ghost use Rattle.cipher.specs.Exports.{applies};

use cipher::stretch_for_c;
use digest::{DrillDigest, HmacSha256};

/// Stretching over HMAC-SHA-256 for a C caller: writes to the front of `out` and answers true; false, with nothing written,
/// if a number is out of range or the input is refused.
// Bare numbers and a `bool`, as C calls it; what C calls cannot be generic.
#[unsafe(no_mangle)]
pub extern "C" fn cipher_stretch_hmac_sha256(
    round: u8,
    passphrase: &[u8],
    identifier: u16,
    extendable: bool,
    exponent: u8,
    half: &[u8],
    out: &mut [u8],
) -> bool
    ensures answer { result ≡ applies round passphrase.now identifier exponent half.now out.old }
    ensures writes { out.new ≡ (if result then stretched (hmac sha256) 32 round passphrase.now identifier extendable exponent half.now ++ drop (length half.now) out.old else out.old) }
{
    stretch_for_c(
        &HmacSha256,
        round,
        passphrase,
        identifier,
        extendable,
        exponent,
        half,
        out,
    )
}

/// Stretching over the drill digest for a C caller: writes to the front of `out` and answers true; false, with nothing written,
/// if a number is out of range or the input is refused.
// Bare numbers and a `bool`, as C calls it; what C calls cannot be generic.
#[unsafe(no_mangle)]
pub extern "C" fn cipher_stretch_drill(
    round: u8,
    passphrase: &[u8],
    identifier: u16,
    extendable: bool,
    exponent: u8,
    half: &[u8],
    out: &mut [u8],
) -> bool
    ensures answer { result ≡ applies round passphrase.now identifier exponent half.now out.old }
    ensures writes { out.new ≡ (if result then stretched drill_digest 4 round passphrase.now identifier extendable exponent half.now ++ drop (length half.now) out.old else out.old) }
{
    stretch_for_c(
        &DrillDigest,
        round,
        passphrase,
        identifier,
        extendable,
        exponent,
        half,
        out,
    )
}

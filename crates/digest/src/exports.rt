//! SHA-256 as a C caller wants it; the crate digest_c exports it.
ghost use Rattle.std.specs.Prelude.{◌≡◌, length, if◌then◌else◌, ◌==◌};
ghost use Rattle.digest.specs.Sha256.{sha256};

use crate::sha256::sha256_of;

/// Writes the SHA-256 digest of `message` to `out` and answers true; false, with nothing written, unless `out` has 32 bytes.
// True or false, as C reads it.
pub fn digest_sha256(message: &[u8], out: &mut [u8]) -> bool
    ensures answer { result ≡ (length out.old == 32) }
    ensures writes { out.new ≡ (if result then sha256 message.now else out.old) }
{
    if out.len() != 32 {
        return false;
    }
    out.copy_from_slice(&sha256_of(message));
    true
}

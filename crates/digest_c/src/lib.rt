//! SHA-256 for a C caller.
#![tactic(auto)]

ghost use Rattle.std.specs.Prelude.{◌≡◌, length, if◌then◌else◌, ◌==◌};
ghost use Rattle.digest.specs.Sha256.{sha256};

/// Writes the SHA-256 digest of `message` to `out` and answers true; false, with nothing written, unless `out` has 32 bytes.
// True or false, as C reads it.
#[unsafe(no_mangle)]
pub extern "C" fn digest_sha256(message: &[u8], out: &mut [u8]) -> bool
    ensures answer { result ≡ (length out.old == 32) }
    ensures writes { out.new ≡ (if result then sha256 message.now else out.old) }
{
    digest::digest_sha256(message, out)
}

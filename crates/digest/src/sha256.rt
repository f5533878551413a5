//! SHA-256 of FIPS 180-4.
ghost use Rattle.std.specs.Prelude.{◌≡◌};
ghost use Rattle.digest.specs.Sha256.{sha256};

mod blocks;
mod compression;
mod functions;

pub(crate) use blocks::{absorb, finish, load, store};
pub(crate) use compression::compress;

/// The initial hash value, section 5.3.3.
pub(crate) const INITIAL: [u32; 8] = [
    0x6a09e667, 0xbb67ae85, 0x3c6ef372, 0xa54ff53a, 0x510e527f, 0x9b05688c, 0x1f83d9ab, 0x5be0cd19,
];

/// The SHA-256 digest of a message.
pub fn sha256_of(message: &[u8]) -> [u8; 32]
    ensures { result ≡ sha256 message.now }
{
    finish(INITIAL, 0, message)
}

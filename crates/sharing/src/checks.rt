//! The first four bytes of a digest, which stand before its key in the value at 254.
ghost use Rattle.std.specs.Prelude.{◌≡◌, ◌≤◌, length, take, Decides};
ghost use Rattle.sharing.specs.Values.{Checked};

use digest::KeyedDigest;

/// The first four bytes of the digest.
pub fn first_four<D: KeyedDigest>(digest: &D, key: &[u8], message: &[u8]) -> [u8; 4]
    requires { (length key.now ≤ 65536) × (length message.now ≤ 65536) }
    ensures { result ≡ take 4 (D.keyed key.now message.now) }
{
    let mut space = [0; 64];
    // It refuses nothing: the input is short enough, and no digest has more than 64 bytes.
    digest.digest(key, message, &mut space).unwrap();
    *space.first_chunk().unwrap()
}

/// Whether a value begins with the first four bytes of the digest with the rest of it as the key.
pub fn digest_fits<D: KeyedDigest>(digest: &D, value: &[u8], secret: &[u8]) -> bool
    requires { (length value.now ≤ 64) × (length secret.now ≤ 64) }
    ensures { Decides result (Checked D.keyed (length value.now) value.now secret.now) }
{
    value
        .split_first_chunk::<4>()
        .is_some_and(|(start, key)| *start == first_four(digest, key, secret))
}

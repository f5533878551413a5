//! Bytes combined in place.
ghost use Rattle.std.specs.Prelude.{◌≡◌};
ghost use Rattle.digest.specs.Keyed.{xors};

/// Combines each byte of `target` with the byte of `mask` at its place, if there is one, by exclusive or.
pub fn xor_into(target: &mut [u8], mask: &[u8])
    ensures { target.new ≡ xors target.old mask.now }
{
    // By index: of what `iter_mut().zip(..)` leaves in a slice the library says nothing.
    for i in 0..target.len().min(mask.len()) {
        target[i] ^= mask[i];
    }
}

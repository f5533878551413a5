//! Whether shares lie on a curve, and its secret.
ghost use Rattle.std.specs.Prelude.{◌≡◌, length, Decides};
ghost use Rattle.sharing.specs.Curves.{CurveLaws};
ghost use Rattle.sharing.specs.Values.{SecretFits, SecretAnswer};
ghost use Rattle.sharing.specs.declared.curve.NoSecret.TheVariants as no_secret;

use crate::checks::digest_fits;
use crate::share::Share;
use crate::sound::{LONGEST_VALUE, SharesFault, SoundShares};
use digest::KeyedDigest;
use numbers::Threshold;

/// Why no secret is written: the first of these that is so.
#[derive(Clone, Copy, PartialEq, Eq, Debug)]
pub enum NoSecret {
    /// No polynomials are laid through the shares.
    Unsound(SharesFault),
    /// They are fewer than the threshold.
    TooFew,
    /// They lie on no curve of the threshold.
    NoCurve,
}

impl From<SharesFault> for NoSecret {
    ghost from_gives = { λ fault e. e ≡ no_secret.Unsound fault };

    fn from(fault: SharesFault) -> NoSecret {
        NoSecret::Unsound(fault)
    }
}

// Whether the value at 254 holds the digest of the secret, if there is more than one share.
fn secret_fits<D: KeyedDigest>(digest: &D, fixing: &SoundShares<'_, '_>, secret: &[u8]) -> bool
    requires { length secret.now ≡ fixing.now.length }
    ensures { Decides result (SecretFits D.keyed fixing.now.length fixing.now.shares.now secret.now) }
{
    if fixing.shares.len() < 2 {
        return true;
    }
    // Too short to hold the digest: so much is known before a value is filled.
    if fixing.length < 4 {
        return false;
    }
    let mut space = [0; LONGEST_VALUE];
    let check = &mut space[..fixing.length];
    fixing.fill_value(254, check);
    digest_fits(digest, check, secret)
}

/// Writes the secret of the shares, if they are as many as the threshold asks, or more, and lie on a curve of that threshold.
/// It is not written, and the answer says why, if there are more than 16, `secret` has more than 64 bytes, a share's value
/// has another length, two places are equal, they are fewer than the threshold, or they lie on no such curve.
pub fn curve_secret<D: KeyedDigest>(
    digest: &D,
    threshold: Threshold,
    shares: &[Share<'_>],
    secret: &mut [u8],
) -> Result<(), NoSecret>
    ensures answer { SecretAnswer D.keyed threshold.value shares.now secret.old result secret.new }
    ensures laws { CurveLaws D.keyed }
{
    let sound = SoundShares::new(shares, secret.len())?;
    let Some((fixing, others)) = sound.split_at(usize::from(threshold.value)) else {
        return Err(NoSecret::TooFew);
    };
    if !fixing.others_fit(others) {
        return Err(NoSecret::NoCurve);
    }
    let mut space = [0; LONGEST_VALUE];
    let candidate = &mut space[..secret.len()];
    fixing.fill_value(255, candidate);
    if !secret_fits(digest, &fixing, candidate) {
        return Err(NoSecret::NoCurve);
    }
    secret.copy_from_slice(candidate);
    Ok(())
}

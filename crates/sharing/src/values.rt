//! The value of shares at another place.
ghost use Rattle.std.specs.Prelude.{◌≡◌, length};
ghost use Rattle.sharing.specs.Values.{ValueAnswer};

use crate::share::Share;
use crate::sound::{SharesFault, SoundShares};

/// Writes the value at `x` of the polynomials through the shares, one for each byte position.
/// It is not written, and the answer says why, if there are more than 16, `value` has more than 64 bytes, a share's value
/// has another length, or two places are equal.
pub fn value_at(shares: &[Share<'_>], x: u8, value: &mut [u8]) -> Result<(), SharesFault>
    ensures { ValueAnswer shares.now x value.old result value.new }
{
    SoundShares::new(shares, value.len())?.fill_value(x, value);
    Ok(())
}

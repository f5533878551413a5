//! The values of a curve, from a secret and drawn bytes.
ghost use Rattle.std.specs.Prelude.{◌≡◌, ◌+◌, ◌-◌, ◌*◌, ◌≤◌, ◌++◌, [], ◌∷◌, length, take, MatchResult};
ghost use Rattle.std.specs.List.{range_with_len};
ghost use Rattle.sharing.specs.Values.{plain, shares_of, value_through, Dealable, NotDealtOf, DealAnswer, DealtCurve};

use crate::checks::first_four;
use crate::share::Share;
use crate::sound::{LONGEST_VALUE, MOST_SHARES, SoundShares};
use digest::KeyedDigest;
use numbers::Threshold;

/// Why no value is dealt: the first of these that is so.
#[derive(Clone, Copy, PartialEq, Eq, Debug)]
pub enum NotDealt {
    /// The secret has not 4 to 64 bytes.
    SecretLength,
    /// More or fewer bytes were drawn than the curve asks for.
    DrawnLength,
    /// The work space is too short.
    WorkTooShort,
    /// The value asked for is not as long as the secret.
    ValueLength,
}

// The value at 254: the digest, and its key.
fn fill_check<D: KeyedDigest>(digest: &D, key: &[u8], secret: &[u8], check: &mut [u8])
    requires { (length check.old ≡ 4 + length key.now) × (length key.now ≤ 64) × (length secret.now ≤ 64) }
    ensures { check.new ≡ take 4 (D.keyed key.now secret.now) ++ key.now }
{
    let (start, rest) = check.split_at_mut(4);
    start.copy_from_slice(&first_four(digest, key, secret));
    rest.copy_from_slice(key);
}

// The shares that fix a curve of threshold `t`: the values drawn, at the places from 0, then those at 254 and 255.
fn fixing_shares<'a>(
    t: usize,
    drawn: &'a [u8],
    check: &'a [u8],
    secret: &'a [u8],
) -> [Share<'a>; MOST_SHARES]
    requires { (2 ≤ t) × (t ≤ 16) × (1 ≤ length secret.now) × (length drawn.now ≡ (t - 2) * length secret.now) }
    ensures { plain (take t result) ≡ shares_of (length secret.entry.now) (range_with_len 0 (t - 2)) drawn.entry.now ++ (record { x = 254; value = check.entry.now } ∷ record { x = 255; value = secret.entry.now } ∷ []) }
{
    let last = Share::new(255, secret);
    let mut shares = [last; MOST_SHARES];
    // The place of a value in the array is its place on the curve.
    for (i, value) in drawn.chunks_exact(secret.len()).enumerate() {
        shares[i] = Share::new(i as u8, value);
    }
    shares[t - 2] = Share::new(254, check);
    shares[t - 1] = last;
    shares
}

// Threshold, secret and drawn bytes go through loose: a struct of them would be taken apart again in each body.
fn check_lengths(
    t: usize,
    secret: &[u8],
    drawn: &[u8],
    work: &[u8],
    value: &[u8],
) -> Result<(), NotDealt>
    requires { t ≤ 16 }
    ensures { MatchResult result (λ _. Dealable t secret.now drawn.now work.now value.now) (NotDealtOf t secret.now drawn.now work.now value.now) }
{
    let n = secret.len();
    if !(4..=LONGEST_VALUE).contains(&n) {
        return Err(NotDealt::SecretLength);
    }
    let drawn_length = if t < 2 { 0 } else { (t - 2) * n + (n - 4) };
    if drawn.len() != drawn_length {
        return Err(NotDealt::DrawnLength);
    }
    // Only n bytes are used; the interface asks for t times n.
    if work.len() < t * n {
        return Err(NotDealt::WorkTooShort);
    }
    if value.len() != n {
        return Err(NotDealt::ValueLength);
    }
    Ok(())
}

/// Writes the value at `x` of the curve for the secret that the drawn bytes fix: a value for each place from 0, two fewer than
/// the threshold, and the key of the digest, four bytes shorter than a value; nothing with threshold 1.
/// `work` has space for as many values as the threshold asks, and is altered.
/// The value is not written, and the answer says why, if the secret has not 4 to 64 bytes, `drawn` has another length, `work` is
/// too short or `value` is not as long as the secret.
pub fn curve_value<D: KeyedDigest>(
    digest: &D,
    threshold: Threshold,
    secret: &[u8],
    drawn: &[u8],
    x: u8,
    work: &mut [u8],
    value: &mut [u8],
) -> Result<(), NotDealt>
    ensures answer { DealAnswer D.keyed threshold.value secret.now drawn.now x work.old value.old result value.new }
    ensures curve { DealtCurve D.keyed }
{
    let t = usize::from(threshold.value);
    check_lengths(t, secret, drawn, work, value)?;
    if t < 2 {
        value.copy_from_slice(secret);
        return Ok(());
    }
    let n = secret.len();
    let (values, key) = drawn.split_at((t - 2) * n);
    let check = &mut work[..n];
    fill_check(digest, key, secret, check);
    let shares = fixing_shares(t, values, check, secret);
    let fixing = SoundShares {
        shares: &shares[..t],
        length: n,
    };
    fixing.fill_value(x, value);
    Ok(())
}

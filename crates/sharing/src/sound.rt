//! Shares that polynomials can be laid through.
ghost use Rattle.std.specs.Prelude.{◌≡◌, ◌<◌, ◌≤◌, length, map, take, drop, All, MatchOption, MatchResult, Decides, ◌≢◌};
ghost use Rattle.std.proofs.Props.{props};
ghost use Rattle.field.specs.Interpolation.{Distinct};
ghost use Rattle.sharing.specs.Props.{distinct_prop};
ghost use Rattle.sharing.specs.Values.{plain, Sound, FaultOf, byte_through, value_through};

use crate::share::Share;
use field::gf256::Gf256;
use field::interpolation::{Point, interpolate};

/// The most shares that are looked at together.
pub const MOST_SHARES: usize = 16;
/// The most bytes that a value may have.
pub const LONGEST_VALUE: usize = 64;

/// Why no polynomials are laid through shares: the first of these that is so.
#[derive(Clone, Copy, PartialEq, Eq, Debug)]
pub enum SharesFault {
    /// There are more than 16.
    TooMany,
    /// A value of more than 64 bytes is asked for.
    LongValue,
    /// A share's value is not as long as the one asked for.
    OtherLength,
    /// Two are at one place.
    SamePlace,
}

/// At most 16 shares at distinct places, with values of `length` bytes each, at most 64.
#[derive(Clone, Copy)]
pub(crate) struct SoundShares<'s, 'a> {
    pub(crate) shares: &'s [Share<'a>],
    pub(crate) length: usize,
    ghost sound: { Sound «length» shares.now } by { Prim.hlevel (distinct_prop, props) },
}

// Whether no share is at this place.
fn is_free(x: u8, shares: &[Share<'_>]) -> bool
    ensures { Decides result (All (λ s. s.x ≢ x) shares.now) }
{
    shares.iter().all(|share| share.x != x)
}

fn are_apart(shares: &[Share<'_>]) -> bool
    ensures { Decides result (Distinct (map (λ s. s.x) shares.now)) }
{
    match shares.split_first() {
        None => true,
        Some((first, rest)) => is_free(first.x, rest) && are_apart(rest),
    }
}

impl<'s, 'a> SoundShares<'s, 'a> {
    pub(crate) fn new(
        shares: &'s [Share<'a>],
        length: usize,
    ) -> Result<SoundShares<'s, 'a>, SharesFault>
        ensures { MatchResult result (λ s. (s.shares.now ≡ shares.now) × (s.length ≡ «length»)) (FaultOf «length» shares.now) }
    {
        if shares.len() > MOST_SHARES {
            return Err(SharesFault::TooMany);
        }
        if length > LONGEST_VALUE {
            return Err(SharesFault::LongValue);
        }
        if !shares.iter().all(|share| share.value.len() == length) {
            return Err(SharesFault::OtherLength);
        }
        if !are_apart(shares) {
            return Err(SharesFault::SamePlace);
        }
        Ok(SoundShares { shares, length })
    }

    // The first `count` of them, and the others.
    pub(crate) fn split_at(self, count: usize) -> Option<(SoundShares<'s, 'a>, &'s [Share<'a>])>
        ensures { MatchOption result (length self.entry.shares.now < count) (λ r. (count ≤ length self.entry.shares.now) × (r.0.shares.now ≡ take count self.entry.shares.now) × (r.0.length ≡ self.entry.length) × (r.1.now ≡ drop count self.entry.shares.now)) }
    {
        let (first, others) = self.shares.split_at_checked(count)?;
        let first = SoundShares {
            shares: first,
            length: self.length,
        };
        Some((first, others))
    }

    // The byte at position `j` of the value at `x`.
    fn byte_at(&self, x: u8, j: usize) -> u8
        requires { j < self.now.length }
        ensures { result ≡ byte_through (plain self.now.shares.now) x j }
    {
        // An array, for bytes of secrets; filled by place, since the library says nothing of what `iter_mut().zip(..)` leaves.
        let mut points = [Point {
            x: Gf256::from(0),
            y: Gf256::from(0),
        }; MOST_SHARES];
        for (i, share) in self.shares.iter().enumerate() {
            points[i] = share.point(j);
        }
        interpolate(&points[..self.shares.len()], Gf256::from(x))
            .unwrap()
            .into()
    }

    /// The value at `x`.
    pub(crate) fn fill_value(&self, x: u8, value: &mut [u8])
        requires { length value.old ≡ self.now.length }
        ensures { value.new ≡ value_through self.now.length (plain self.now.shares.now) x }
    {
        for (j, byte) in value.iter_mut().enumerate() {
            *byte = self.byte_at(x, j);
        }
    }

    // Whether the value at `x` is this one.
    fn value_is(&self, x: u8, value: &[u8]) -> bool
        ensures { Decides result (value_through self.now.length (plain self.now.shares.now) x ≡ value.now) }
    {
        value.len() == self.length
            && value
                .iter()
                .enumerate()
                .all(|(j, byte)| *byte == self.byte_at(x, j))
    }

    /// Whether others lie on the polynomials through these.
    pub(crate) fn others_fit(&self, others: &[Share<'_>]) -> bool
        ensures { Decides result (All (λ s. value_through self.now.length (plain self.now.shares.now) s.x ≡ s.value.now) others.now) }
    {
        others
            .iter()
            .all(|other| self.value_is(other.x, other.value))
    }
}

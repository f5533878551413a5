//! The numbers on a card, each a type of its own: none can be out of its range, and none passes for another.
#![tactic(auto)]

ghost use Rattle.std.specs.Prelude.{◌≡◌, ℕ, ◌^◌, ◌<◌, ◌≤◌, MatchOption};
ghost use Rattle.std.proofs.Common.{rules};

mod parameters;
mod word_index;

pub use parameters::Parameters;
pub use word_index::WordIndex;

/// The value, if it is in that range.
fn in_range(value: u16, least: u16, most: u16) -> Option<u16>
    ensures { MatchOption result (least ≤ value → most < value) (λ n. (n ≡ value) × ((least ≤ n) × (n ≤ most))) }
{
    (least..=most).contains(&value).then_some(value)
}

/// A number from `LEAST` to `MOST`.
// A struct for each, and not one generic over a kind: an index in a struct of its own passes for no other.
pub trait Number: Copy {
    const LEAST: u16;

    const MOST: u16;

    ghost LEAST: { ℕ };

    ghost MOST: { ℕ };

    ghost number: { Self → ℕ };

    /// The number with this value, if the value is in the range.
    // A body each: one for all would have to make a Self without knowing its fields. No `TryFrom`, which has no such clause.
    fn new(value: u16) -> Option<Self>
        ensures { MatchOption result (LEAST ≤ value → MOST < value) (λ n. number n ≡ value) };

    /// Its value.
    fn get(self) -> u16
        ensures { result ≡ number self };

    ghost fits: { MOST < 2 ^ 16 };

    ghost in_range: { (n : Self) → (LEAST ≤ number n) × (number n ≤ MOST) };
}

/// Names the deal that a card comes from: 15 bits.
#[derive(Clone, Copy, PartialEq, Eq, Debug)]
pub struct Identifier {
    pub value: u16,
    ghost bound: { value < 32768 },
}

impl Number for Identifier {
    const LEAST: u16 = 0;

    const MOST: u16 = 32767;

    ghost LEAST = { 0 };

    ghost MOST = { 32767 };

    ghost number = { λ n. n.value };

    ghost fits = { Prim.search rules };

    ghost in_range = { Prim.search rules };

    fn new(value: u16) -> Option<Identifier> {
        let value = in_range(value, Self::LEAST, Self::MOST)?;
        Some(Identifier { value })
    }

    fn get(self) -> u16 {
        self.value
    }
}

/// The iteration exponent e: stretching takes 2500 × 2^e iterations.
#[derive(Clone, Copy, PartialEq, Eq, Debug)]
pub struct Exponent {
    pub value: u8,
    ghost bound: { value < 16 },
}

impl Number for Exponent {
    const LEAST: u16 = 0;

    const MOST: u16 = 15;

    ghost LEAST = { 0 };

    ghost MOST = { 15 };

    ghost number = { λ n. n.value };

    ghost fits = { Prim.search rules };

    ghost in_range = { Prim.search rules };

    fn new(value: u16) -> Option<Exponent> {
        let value = in_range(value, Self::LEAST, Self::MOST)?;
        Some(Exponent { value: value as u8 })
    }

    fn get(self) -> u16 {
        u16::from(self.value)
    }
}

/// One of the four rounds of the cipher, from 0.
#[derive(Clone, Copy, PartialEq, Eq, Debug)]
pub struct RoundNumber {
    pub value: u8,
    ghost bound: { value < 4 },
}

impl Number for RoundNumber {
    const LEAST: u16 = 0;

    const MOST: u16 = 3;

    ghost LEAST = { 0 };

    ghost MOST = { 3 };

    ghost number = { λ n. n.value };

    ghost fits = { Prim.search rules };

    ghost in_range = { Prim.search rules };

    fn new(value: u16) -> Option<RoundNumber> {
        let value = in_range(value, Self::LEAST, Self::MOST)?;
        Some(RoundNumber { value: value as u8 })
    }

    fn get(self) -> u16 {
        u16::from(self.value)
    }
}

/// Which group a card belongs to, from 0.
#[derive(Clone, Copy, PartialEq, Eq, Debug)]
pub struct GroupNumber {
    pub value: u8,
    ghost bound: { value < 16 },
}

impl Number for GroupNumber {
    const LEAST: u16 = 0;

    const MOST: u16 = 15;

    ghost LEAST = { 0 };

    ghost MOST = { 15 };

    ghost number = { λ n. n.value };

    ghost fits = { Prim.search rules };

    ghost in_range = { Prim.search rules };

    fn new(value: u16) -> Option<GroupNumber> {
        let value = in_range(value, Self::LEAST, Self::MOST)?;
        Some(GroupNumber { value: value as u8 })
    }

    fn get(self) -> u16 {
        u16::from(self.value)
    }
}

/// Which member of its group a card belongs to, from 0.
#[derive(Clone, Copy, PartialEq, Eq, Debug)]
pub struct MemberNumber {
    pub value: u8,
    ghost bound: { value < 16 },
}

impl Number for MemberNumber {
    const LEAST: u16 = 0;

    const MOST: u16 = 15;

    ghost LEAST = { 0 };

    ghost MOST = { 15 };

    ghost number = { λ n. n.value };

    ghost fits = { Prim.search rules };

    ghost in_range = { Prim.search rules };

    fn new(value: u16) -> Option<MemberNumber> {
        let value = in_range(value, Self::LEAST, Self::MOST)?;
        Some(MemberNumber { value: value as u8 })
    }

    fn get(self) -> u16 {
        u16::from(self.value)
    }
}

/// How many are wanted: groups of a deal, or members of a group.
#[derive(Clone, Copy, PartialEq, Eq, Debug)]
pub struct Threshold {
    pub value: u8,
    ghost least: { 1 ≤ value },
    ghost most: { value ≤ 16 },
}

impl Number for Threshold {
    const LEAST: u16 = 1;

    const MOST: u16 = 16;

    ghost LEAST = { 1 };

    ghost MOST = { 16 };

    ghost number = { λ n. n.value };

    ghost fits = { Prim.search rules };

    ghost in_range = { Prim.search rules };

    fn new(value: u16) -> Option<Threshold> {
        let value = in_range(value, Self::LEAST, Self::MOST)?;
        Some(Threshold { value: value as u8 })
    }

    fn get(self) -> u16 {
        u16::from(self.value)
    }
}

/// How many groups a deal has.
#[derive(Clone, Copy, PartialEq, Eq, Debug)]
pub struct GroupCount {
    pub value: u8,
    ghost least: { 1 ≤ value },
    ghost most: { value ≤ 16 },
}

impl Number for GroupCount {
    const LEAST: u16 = 1;

    const MOST: u16 = 16;

    ghost LEAST = { 1 };

    ghost MOST = { 16 };

    ghost number = { λ n. n.value };

    ghost fits = { Prim.search rules };

    ghost in_range = { Prim.search rules };

    fn new(value: u16) -> Option<GroupCount> {
        let value = in_range(value, Self::LEAST, Self::MOST)?;
        Some(GroupCount { value: value as u8 })
    }

    fn get(self) -> u16 {
        u16::from(self.value)
    }
}

//! The parts of a card, before they are checked against each other.
ghost use Rattle.std.specs.Prelude.{◌≡◌};
ghost use Rattle.reader.specs.Card.{parts_of};
ghost use Rattle.reader.specs.Reading.{checked_fields, meant};

use crate::card::Card;
use crate::value::Value;
use numbers::{Exponent, GroupCount, GroupNumber, Identifier, MemberNumber, Threshold};
use refusal::Refusal;

/// Each part is in its own range.
#[derive(Clone, Copy)]
pub struct CardParts {
    pub identifier: Identifier,
    pub extendable: bool,
    pub exponent: Exponent,
    pub group: GroupNumber,
    pub group_threshold: Threshold,
    pub group_count: GroupCount,
    pub member: MemberNumber,
    pub member_threshold: Threshold,
    pub value: Value,
}

impl TryFrom<CardParts> for Card {
    type Error = Refusal;

    ghost try_from_gives = { λ parts result. meant result ≡ checked_fields (parts_of parts) };

    /// The card of these parts: its group and the groups wanted have to exist, and at member threshold 1 there is only
    /// member 0.
    fn try_from(parts: CardParts) -> Result<Card, Refusal> {
        if parts.group_threshold.value > parts.group_count.value
            || parts.group.value >= parts.group_count.value
        {
            return Err(Refusal::GroupNumbers);
        }
        if parts.member_threshold.value == 1 && parts.member.value != 0 {
            return Err(Refusal::MemberAtThresholdOne);
        }
        Ok(Card { parts })
    }
}

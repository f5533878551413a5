//! A card: one share of a deal.
ghost use Rattle.std.specs.Prelude.{◌≡◌, ◌<◌, ◌≤◌};

use crate::card_parts::CardParts;

/// A card that can be read: its group exists, the groups wanted exist, and at member threshold 1 it is member 0.
#[derive(Clone, Copy)]
pub struct Card {
    pub parts: CardParts,
    ghost enough: { parts.group_threshold.value ≤ parts.group_count.value },
    ghost exists: { parts.group.value < parts.group_count.value },
    ghost alone: { parts.member_threshold.value ≡ 1 → parts.member.value ≡ 0 },
}

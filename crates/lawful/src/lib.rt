//! Lawful deals: how a secret is dealt onto cards, and what cards that lie together say of the deals that can have dealt them.
#![tactic(auto)]

ghost use Rattle.lawful.specs.DealLaws.{DealLaws};
ghost use Rattle.lawful.specs.Opening.{OpeningLaws};

use cipher::RoundFunction;
use digest::KeyedDigest;

/// Cards that meet the thresholds were dealt by a lawful deal of one secret or by none, and what the cards show says which; and
/// every card that a deal dealt can be written. It computes nothing.
pub fn deal_laws<D: KeyedDigest, F: RoundFunction>(_digest: &D, _function: &F)
    ensures opening { OpeningLaws D.keyed F.function }
    ensures deals { DealLaws D.keyed F.function }
{}

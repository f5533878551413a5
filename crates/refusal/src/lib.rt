//! Every refusal of the kit: its number, its layer and its place.
#![tactic(auto)]

ghost use Rattle.std.specs.Prelude.{◌≡◌, ◌<◌, true, length, Some};
ghost use Rattle.refusal.specs.Refusals.{number_of, layer_of, place_of};
ghost use Rattle.refusal.specs.Sentences.{plain_line, sentence_of};

use numbers::{GroupNumber, MemberNumber};
use std::error::Error;
use std::fmt;

mod fields;
mod layers;

use fields::row_place;
pub use fields::{BoundField, PlanField};
pub use layers::Layer;

/// Why the kit refuses, with what the place of the refusal is told from.
#[derive(Clone, Copy, PartialEq, Eq, Debug)]
pub enum Refusal {
    /// A line of the word file is faulty, or lines are missing: where it begins, or the file's length.
    FaultyWordFile { offset: usize },
    /// A byte that no line may have outside its remark.
    ForbiddenByte { offset: usize },
    /// A word under four bytes, or one that begins no word of the lexicon.
    NoSuchWord { offset: usize },
    /// Not 20 to 59 words, or a count that would leave more than 8 bits of padding.
    WordCount { words: usize },
    /// The checksum is not right.
    WrongChecksum,
    /// A padding bit is 1.
    PaddingNotZero,
    /// The group threshold exceeds the group count, or the group number is not below it.
    GroupNumbers,
    /// The member threshold is 1 and the member number is not 0.
    MemberAtThresholdOne,
    /// A byte of the passphrase is not 32 to 126: its position; or there are more than 100: then 100.
    Passphrase { position: usize },
    /// The secret, or a half of it, has not a length that is asked for.
    SecretLength { length: usize },
    /// A part of the plan is out of its range.
    Plan { field: PlanField },
    /// A space lent to the layer has fewer bytes than wanted.
    SpaceTooShort { layer: Layer, wanted: usize },
    /// A key or a message has more than 65,536 bytes.
    InputTooLong,
    /// No card lies in the tray.
    EmptyTray,
    /// The card differs from those in the tray, or in its row, in a field that binds them.
    BindingBroken { field: BoundField },
    /// The same card lies at its place already.
    SameCard { member: MemberNumber },
    /// A card of another value lies at its place.
    OtherValue { member: MemberNumber },
    /// 256 cards lie in the tray.
    TrayFull,
    /// Too few cards lie: the lowest row that has some cards and not enough, if any.
    Lacking { row: Option<GroupNumber> },
    /// The cards fit no deal: the row that shows it, if one does.
    Contradictory { row: Option<GroupNumber> },
    /// No card lies at the place named, or there is no such place.
    NoCardThere { member: u8 },
    /// The source has fewer bytes than the call draws.
    TooFewBytes { wanted: usize },
    /// The deal has no card of that number.
    NoSuchCard { cards: usize },
}

impl Refusal {
    // Tables by `match`, row for row as their definitions.

    /// The number of the refusal, which never changes.
    pub fn number(self) -> u8
        ensures { result ≡ number_of self }
    {
        match self {
            Refusal::FaultyWordFile { .. } => 1,
            Refusal::ForbiddenByte { .. } => 2,
            Refusal::NoSuchWord { .. } => 3,
            Refusal::WordCount { .. } => 4,
            Refusal::WrongChecksum => 5,
            Refusal::PaddingNotZero => 6,
            Refusal::GroupNumbers => 7,
            Refusal::MemberAtThresholdOne => 8,
            Refusal::Passphrase { .. } => 9,
            Refusal::SecretLength { .. } => 10,
            Refusal::Plan { .. } => 11,
            Refusal::SpaceTooShort { .. } => 12,
            Refusal::InputTooLong => 13,
            Refusal::EmptyTray => 21,
            Refusal::BindingBroken { .. } => 22,
            Refusal::SameCard { .. } => 23,
            Refusal::OtherValue { .. } => 24,
            Refusal::TrayFull => 25,
            Refusal::Lacking { .. } => 26,
            Refusal::Contradictory { .. } => 27,
            Refusal::NoCardThere { .. } => 28,
            Refusal::TooFewBytes { .. } => 29,
            Refusal::NoSuchCard { .. } => 30,
        }
    }

    /// The layer that refused.
    pub fn layer(self) -> Layer
        ensures { result ≡ layer_of self }
    {
        match self {
            Refusal::FaultyWordFile { .. } => Layer::List,
            Refusal::ForbiddenByte { .. } | Refusal::NoSuchWord { .. } => Layer::Text,
            Refusal::WordCount { .. }
            | Refusal::WrongChecksum
            | Refusal::PaddingNotZero
            | Refusal::GroupNumbers
            | Refusal::MemberAtThresholdOne => Layer::Card,
            Refusal::Passphrase { .. } | Refusal::SecretLength { .. } => Layer::Cipher,
            Refusal::Plan { .. } | Refusal::NoSuchCard { .. } => Layer::Deal,
            Refusal::SpaceTooShort { layer, .. } => layer,
            Refusal::InputTooLong => Layer::Digest,
            Refusal::TooFewBytes { .. } => Layer::Source,
            Refusal::EmptyTray
            | Refusal::BindingBroken { .. }
            | Refusal::SameCard { .. }
            | Refusal::OtherValue { .. }
            | Refusal::TrayFull
            | Refusal::Lacking { .. }
            | Refusal::Contradictory { .. }
            | Refusal::NoCardThere { .. } => Layer::Tray,
        }
    }

    /// The place of the refusal: an offset, a count, or the number of a field, a group or a member.
    pub fn place(self) -> usize
        ensures { result ≡ place_of self }
    {
        match self {
            Refusal::FaultyWordFile { offset } => offset,
            Refusal::ForbiddenByte { offset } => offset,
            Refusal::NoSuchWord { offset } => offset,
            Refusal::WordCount { words } => words,
            Refusal::WrongChecksum => 0,
            Refusal::PaddingNotZero => 4,
            Refusal::GroupNumbers => 2,
            Refusal::MemberAtThresholdOne => 3,
            Refusal::Passphrase { position } => position,
            Refusal::SecretLength { length } => length,
            Refusal::Plan { field } => field.place(),
            Refusal::SpaceTooShort { wanted, .. } => wanted,
            Refusal::InputTooLong => 65_536,
            Refusal::EmptyTray => 0,
            Refusal::BindingBroken { field } => field.place(),
            Refusal::SameCard { member } => usize::from(member.value),
            Refusal::OtherValue { member } => usize::from(member.value),
            Refusal::TrayFull => 256,
            Refusal::Lacking { row } => row_place(row),
            Refusal::Contradictory { row } => row_place(row),
            Refusal::NoCardThere { member } => usize::from(member),
            Refusal::TooFewBytes { wanted } => wanted,
            Refusal::NoSuchCard { cards } => cards,
        }
    }

    /// What is wrong, for a person: one line that is not empty, with no colon in it.
    pub fn sentence(self) -> &'static str
        ensures text { result.now ≡ sentence_of self }
        ensures plain { plain_line result.now ≡ true }
        ensures nonempty { 0 < length result.now }
    {
        match self {
            Refusal::FaultyWordFile { .. } => "the word file has a faulty or a missing line here",
            Refusal::ForbiddenByte { .. } =>
                "only a to z, 0 to 9, space and tab may stand before a remark",
            Refusal::NoSuchWord { .. } =>
                "the word here is under four letters or begins no word of the list",
            Refusal::WordCount { .. } => "no card has this number of words",
            Refusal::WrongChecksum => "the checksum is wrong, so at least one word is",
            Refusal::PaddingNotZero => "the padding before the value is not all zero bits",
            Refusal::GroupNumbers =>
                "the group number or the group threshold is too high for the group count",
            Refusal::MemberAtThresholdOne => "at member threshold 1 the member number must be 0",
            Refusal::Passphrase { .. } =>
                "a passphrase has at most 100 bytes, each of them printable ASCII",
            Refusal::SecretLength { .. } =>
                "the secret does not have a length that is allowed here",
            Refusal::Plan { .. } => "a part of the plan is out of its range",
            Refusal::SpaceTooShort { .. } => "the space given is too short",
            Refusal::InputTooLong => "a key or a message has at most 65536 bytes",
            Refusal::EmptyTray => "no card lies in the tray",
            Refusal::BindingBroken { .. } => "the card does not belong with those in the tray",
            Refusal::SameCard { .. } => "this card lies in the tray already",
            Refusal::OtherValue { .. } => "a card with another value lies at its place",
            Refusal::TrayFull => "the tray is full",
            Refusal::Lacking { .. } => "more cards are needed",
            Refusal::Contradictory { .. } => "the cards in the tray contradict one another",
            Refusal::NoCardThere { .. } => "no card lies at that place",
            Refusal::TooFewBytes { .. } => "the source has too few bytes left",
            Refusal::NoSuchCard { .. } => "the deal has no card of that number",
        }
    }
}

impl fmt::Display for Refusal {
    ghost output = { λ r. Some (sentence_of r) };

    fn fmt<W: fmt::Write>(&self, f: &mut fmt::Formatter<W>) -> fmt::Result {
        f.write_str(self.sentence())
    }
}

impl Error for Refusal {}

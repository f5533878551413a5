//! The fields that a refusal can name by its place.
ghost use Rattle.std.specs.Prelude.{◌≡◌};
ghost use Rattle.refusal.specs.Fields.{bound_place, plan_place, row_place};

use numbers::GroupNumber;

/// A field in which the cards of a tray, or of one of its rows, have to agree.
#[derive(Clone, Copy, PartialEq, Eq, Debug)]
pub enum BoundField {
    Identifier,
    Flag,
    Exponent,
    GroupThreshold,
    GroupCount,
    ValueLength,
    MemberThreshold,
}

impl BoundField {
    pub(crate) fn place(self) -> usize
        ensures { result ≡ bound_place self }
    {
        self as usize
    }
}

/// A part of a plan: one of its fields, or the thresholds and sizes of one group.
#[derive(Clone, Copy, PartialEq, Eq, Debug)]
pub enum PlanField {
    Identifier,
    Flag,
    Exponent,
    ValueLength,
    GroupCount,
    GroupThreshold,
    Group(GroupNumber),
}

impl PlanField {
    // By `match`, since one case holds a number.
    pub(crate) fn place(self) -> usize
        ensures { result ≡ plan_place self }
    {
        match self {
            PlanField::Identifier => 0,
            PlanField::Flag => 1,
            PlanField::Exponent => 2,
            PlanField::ValueLength => 3,
            PlanField::GroupCount => 4,
            PlanField::GroupThreshold => 5,
            PlanField::Group(group) => 6 + usize::from(group.value),
        }
    }
}

/// The place that stands for a row of the tray, or for none.
pub(crate) fn row_place(row: Option<GroupNumber>) -> usize
    ensures { result ≡ row_place row }
{
    row.map_or(16, |group| usize::from(group.value))
}

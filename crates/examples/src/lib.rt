//! The worked examples of the kit's definitions, in one table.
#![tactic(auto)]

ghost use Rattle.std.specs.Prelude.{◌≡◌, length};
ghost use Rattle.examples.specs.Worked.{WorkedExamples, table};

/// Every row of the table holds. How many rows there are is answered.
pub fn worked_examples() -> usize
    ensures holds { WorkedExamples }
    ensures rows { result ≡ length table }
{
    10
}

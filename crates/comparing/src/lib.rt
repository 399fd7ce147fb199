// Whether two tables are the same, number for number, the unused parts of their arrays too.
// Promises: the answer is its definition, true exactly of a table and itself (specs/Alike).
// Builds on the tables and on text's laws of equal words.
#![tactic(auto)]

ghost use Rattle.std.specs.Prelude.{◌≡◌};
ghost use Rattle.comparing.specs.Alike.{alike};

use tables::Table;

pub fn same_tables(one: &Table, other: &Table) -> bool
    ensures { result ≡ alike one.now other.now }
{
    one == other
}

// Guards: the number and the types of their operands.
ghost use Rattle.std.specs.Prelude.{◌≡◌};
ghost use Rattle.model.specs.Values.{function_by, operands_of};
ghost use Rattle.refusals.specs.Checks.{first};
ghost use Rattle.refusals.specs.Activities.{guard_rules};
ghost use Rattle.activities.specs.Operands.{operand_type};

use judging::{name_rules, rule};
use refusals::Verdict;
use text::Name;

// The number of operands of a function.
pub fn operands_of(number: usize) -> usize
    ensures { result ≡ operands_of (function_by number) }
{
    match number {
        0 => 1,
        1 => 1,
        2 => 2,
        3 => 2,
        _ => 2,
    }
}

// The type of a function's operands.
pub fn operand_type(number: usize) -> usize
    ensures { result ≡ operand_type (function_by number) }
{
    match number {
        0 => 1,
        1 => 1,
        2 => 0,
        3 => 2,
        _ => 2,
    }
}

// A guard's name and the number of its arguments.
pub fn guard_rules(number: usize, name: Name, count: usize) -> Verdict
    ensures { result ≡ first (guard_rules number name count) }
{
    name_rules(name)?;
    rule(6, name.start, 4 <= number)?;
    rule(7, name.start, operands_of(number) != count)
}

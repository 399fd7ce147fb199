// The rules 7 to 12 that modes and their activities must keep, part by part.
// Promises that each function answers with the first of its rules that is broken, in text order, as the definitions of refusals list them, where the index of the table is right for the text.
// Builds on the rules of names and ports, on what names mean, and on the table of names.
#![tactic(auto)]

ghost use Rattle.std.specs.Prelude.{◌≡◌, ◌++◌};
ghost use Rattle.refusals.specs.Checks.{first};
ghost use Rattle.refusals.specs.Refusals.{beyond as beyond_room};
ghost use Rattle.refusals.specs.Declarations.{new_rules};
ghost use Rattle.refusals.specs.Activities.{start_rules, period_rules, end_rules};
ghost use Rattle.judging.specs.Known.{rows_of, Right};
ghost use Rattle.activities.specs.Kept.{period_kept};

use judging::{Names, rule};
use refusals::Verdict;
use text::Name;

pub mod acts;
pub mod frequencies;
pub mod operands;

// 8: whether a number is not one of 1 up to a limit.
fn beyond(limit: usize, number: usize) -> bool
    ensures { result ≡ beyond_room limit number }
{
    number == 0 || limit < number
}

// A mode's first keyword: a second "start".
fn start_rules(started: bool, start: bool, at: usize) -> Verdict
    ensures { result ≡ first (start_rules started start at) }
{
    rule(12, at, start && started)
}

// A period in microseconds, of digits that are kept up to 4294967296.
pub fn period_of(s: &[u8], digits: Name, milli: bool) -> usize
    ensures { result ≡ period_kept s.now digits milli }
{
    let number = meanings::number_of(s, digits);
    if milli { number * 1000 } else { number }
}

// A period.
fn period_rules(s: &[u8], digits: Name, milli: bool) -> Verdict
    ensures { result ≡ first (period_rules s.now digits milli) }
{
    rule(
        8,
        digits.start,
        beyond(2147483647, period_of(s, digits, milli)),
    )
}

// A mode, up to its "{".
pub fn mode_rules(
    names: &Names<'_>,
    started: bool,
    start: bool,
    at: usize,
    name: Name,
    digits: Name,
    milli: bool,
) -> Verdict
    ensures { Right names.now → result ≡ first (start_rules started start at ++ (new_rules names.now.text.now (rows_of names.now) 4 name ++ period_rules names.now.text.now digits milli)) }
{
    start_rules(started, start, at)?;
    names.new_rules(4, name)?;
    period_rules(names.text, digits, milli)
}

// The end of the text.
pub fn end_rules(started: bool, at: usize) -> Verdict
    ensures { result ≡ first (end_rules started at) }
{
    rule(12, at, !started)
}

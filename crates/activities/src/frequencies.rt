// An activity's head: 11 of the activities of its mode, 8 and 9 of its frequency.
ghost use Rattle.std.specs.Prelude.{◌≡◌, ◌<◌};
ghost use Rattle.std.specs.List.{list_all};
ghost use Rattle.refusals.specs.Checks.{first};
ghost use Rattle.refusals.specs.Refusals.{divides};
ghost use Rattle.refusals.specs.Values.{number_of};
ghost use Rattle.activities.specs.Kept.{head_checks};

use judging::rule;
use refusals::Verdict;
use text::Name;

// Whether a frequency divides each of some numbers.
fn divides_all(numbers: &[usize], frequency: usize) -> bool
    requires { 0 < frequency }
    ensures { result ≡ list_all (divides frequency) numbers.now }
{
    numbers.iter().all(|number| number % frequency == 0)
}

// An activity's "[", and its frequency.
pub fn head_rules(
    s: &[u8],
    frequencies: &[usize],
    activities: usize,
    period: usize,
    kind: u8,
    at: usize,
    digits: Name,
) -> Verdict
    ensures { result ≡ first (head_checks activities period frequencies.now kind at (number_of s.now digits) digits) }
{
    rule(11, at, 32 <= activities)?;
    let frequency = meanings::number_of(s, digits);
    rule(8, digits.start, super::beyond(64, frequency))?;
    rule(9, digits.start, period % frequency != 0)?;
    rule(
        9,
        digits.start,
        kind == 4 && !divides_all(frequencies, frequency),
    )
}

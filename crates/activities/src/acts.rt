// What an activity does: a task invoked, an actuator updated, a switch of the mode.
ghost use Rattle.std.specs.Prelude.{◌≡◌, ℕ, List, ◌++◌};
ghost use Rattle.refusals.specs.Checks.{first};
ghost use Rattle.refusals.specs.Ports.{port_rules};
ghost use Rattle.refusals.specs.Twice.{twice_of};
ghost use Rattle.names.specs.Index.{Indexed};
ghost use Rattle.judging.specs.Known.{rows_of, Right};
ghost use Rattle.activities.specs.Kept.{call_checks, update_checks, target_checks};

use judging::{Names, name_rules, rule};
use names::{Scope, Sought};
use refusals::{Row, Verdict};
use text::{Name, Port};

// A search over the pairs of some numbers: the first place whose number stands among those before it; behind the last where there is none.
pub fn twice_of(numbers: &[usize]) -> usize
    ensures { result ≡ twice_of numbers.now }
{
    for j in 0..numbers.len() {
        if numbers[..j].contains(&numbers[j]) {
            return j;
        }
    }
    numbers.len()
}

// A name that means this row and acts once in a mode: 4, 6 and 10, for an actuator.
fn update_name_rules(again: bool, actuator: Row, name: Name) -> Verdict
    ensures { result ≡ first (update_checks again actuator name) }
{
    name_rules(name)?;
    rule(6, name.start, actuator.sort == 7)?;
    rule(10, name.start, actuator.sort < 7 && again)
}

// An actuator that is updated, again or not, and its source.
pub fn update_rules(
    names: &Names<'_>,
    again: bool,
    actuator: Row,
    name: Name,
    source: Port,
) -> Verdict
    ensures { Right names.now → result ≡ first (update_checks again actuator name ++ port_rules names.now.text.now (rows_of names.now) actuator.typ source) }
{
    update_name_rules(again, actuator, name)?;
    names.port_rules(actuator.typ, source)
}

// A task that is invoked with so many arguments, again or not.
pub fn call_rules(names: &Names<'_>, again: bool, task: Row, name: Name, count: usize) -> Verdict
    ensures { (s : List ℕ) → Indexed s names.now.cells.now → result ≡ first (call_checks (rows_of names.now) again task name count) }
{
    name_rules(name)?;
    rule(6, name.start, task.sort == 7)?;
    let scope = Scope::OfTask(task.value);
    let inputs = names::count(names.cells, names.rows, Sought::PortOf { scope, sort: 5 });
    rule(7, name.start, task.sort < 7 && inputs != count)?;
    rule(10, name.start, task.sort < 7 && again)
}

// The name of a switch's target, which is known as a mode or not.
pub fn target_rules(known: bool, name: Name) -> Verdict
    ensures { result ≡ first (target_checks known name) }
{
    name_rules(name)?;
    rule(6, name.start, !known)
}

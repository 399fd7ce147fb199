// The items of a mode: what each breaks, and what is known behind it.
ghost use Rattle.std.specs.Prelude.{◌≡◌, ◌%◌, ◌++◌, take, ◌==◌, slice_index, slice_index_or, slice_set};
ghost use Rattle.text.specs.declared.Item.TheVariants.{ModeBegin};
ghost use Rattle.text.specs.Items.{items_from};
ghost use Rattle.model.specs.Rooms.{activity_room};
ghost use Rattle.refusals.specs.Checks.{first};
ghost use Rattle.refusals.specs.Names.{task_scope, input_sort, no_type, types, is_port_of};
ghost use Rattle.refusals.specs.Values.{number_of};
ghost use Rattle.refusals.specs.Declarations.{new_rules};
ghost use Rattle.refusals.specs.Ports.{task_named, port_rules, argument_named, argument_rules};
ghost use Rattle.refusals.specs.Activities.{start_rules, period_rules, actuator_named, guard_rules, function_named, end_rules};
ghost use Rattle.refusals.specs.Twice.{twice_of};
ghost use Rattle.kept.specs.Kept.{Kept};
ghost use Rattle.kept.specs.Rows.{state_of, name_at, port_at};
ghost use Rattle.names.specs.Index.{Indexed};
ghost use Rattle.names.specs.Tables.{rows_in};
ghost use Rattle.judging.specs.Known.{rows_of, Right};
ghost use Rattle.activities.specs.Kept.{head_checks, call_checks, update_checks, target_checks};
ghost use Rattle.activities.specs.Operands.{pair_of};
ghost use Rattle.noting.specs.Known.{one_more, begun_by, headed_by, guarded_by, operated_by, invoked_by, argued_by, updated_by, switched_by};
ghost use Rattle.targets.specs.Ahead.{is_target};
ghost use Rattle.rules.specs.Going.{turn_of, Told};

use super::{Turn, declaring};
use activities::{acts, frequencies, operands};
use judging::Names;
use names::{Scope, Sought};
use noting::{Known, laying};
use text::Refusal;

// A mode begins: its name is entered where nothing is broken.
pub(crate) fn begun(
    s: &[u8],
    cells: &mut [usize],
    n: usize,
    known: Known,
    row: &[usize; 16],
) -> Result<Turn, Refusal>
    ensures { Indexed s.now cells.old → Told s.now cells.old n (ModeBegin (slice_index row.now 7 == 1) (slice_index row.now 8) (name_at row.now 5) (name_at row.now 9) (slice_index row.now 11 == 1))
        (first (start_rules known.started (slice_index row.now 7 == 1) (slice_index row.now 8) ++ (new_rules s.now (rows_in cells.old n) 4 (name_at row.now 5) ++ period_rules s.now (name_at row.now 9) (slice_index row.now 11 == 1))))
        (begun_by s.now known (slice_index row.now 7 == 1) (name_at row.now 9) (slice_index row.now 11 == 1)) result cells.new }
{
    let name = kept::first_name(row);
    let digits = kept::third_name(row);
    let start = row[7] == 1;
    let milli = row[11] == 1;
    let names = Names {
        text: s,
        cells,
        rows: n,
    };
    activities::mode_rules(&names, known.started, start, row[8], name, digits, milli)?;
    Ok(Turn {
        rows: declaring::mode_entered(s, cells, n, name),
        known: known.begun(s, start, digits, milli),
    })
}

// An activity begins.
pub(crate) fn headed(
    names: &Names<'_>,
    rates: &[usize],
    known: Known,
    row: &[usize; 16],
) -> Result<Turn, Refusal>
    ensures { result ≡ turn_of names.now.rows (first (head_checks known.activities known.period (take known.calls rates.now) (slice_index row.now 7 % 256) (slice_index row.now 8) (number_of names.now.text.now (name_at row.now 5)) (name_at row.now 5))) (headed_by names.now.text.now known (name_at row.now 5)) }
{
    let digits = kept::first_name(row);
    frequencies::head_rules(
        names.text,
        laying::front(rates, known.calls),
        known.activities,
        known.period,
        kept::section(row),
        row[8],
        digits,
    )?;
    Ok(Turn {
        rows: names.rows,
        known: known.headed(names.text, digits),
    })
}

// A guard's name and the number of its arguments.
pub(crate) fn guarded(names: &Names<'_>, known: Known, row: &[usize; 16]) -> Result<Turn, Refusal>
    ensures { result ≡ turn_of names.now.rows (first (guard_rules (function_named names.now.text.now (name_at row.now 5)) (name_at row.now 5) (slice_index row.now 7))) (guarded_by known (function_named names.now.text.now (name_at row.now 5))) }
{
    let name = kept::first_name(row);
    let number = meanings::function_named(names.text, name);
    operands::guard_rules(number, name, row[7])?;
    Ok(Turn {
        rows: names.rows,
        known: known.guarded(number),
    })
}

// The type of a guard's next operand.
fn operand_wanted(left: usize, operand: usize) -> usize
    ensures { result ≡ slice_index_or (pair_of left operand) 0 no_type }
{
    if left == 0 { 2 } else { operand }
}

// A guard's operand.
pub(crate) fn operated(names: &Names<'_>, known: Known, row: &[usize; 16]) -> Result<Turn, Refusal>
    ensures { Right names.now → result ≡ turn_of names.now.rows (first (argument_rules names.now.text.now (rows_of names.now) (slice_index_or (pair_of known.left known.operand) 0 no_type) (port_at row.now 5))) (operated_by known (argument_named names.now.text.now (rows_of names.now) (port_at row.now 5)).typ) }
{
    let wanted = operand_wanted(known.left, known.operand);
    let operand = names.argument_rules(wanted, kept::first_port(row));
    operand.verdict?;
    Ok(Turn {
        rows: names.rows,
        known: known.operated(operand.typ),
    })
}

// A task that is invoked: its number is laid behind those of the mode, where the pairs are searched, and its frequency behind theirs.
pub(crate) fn invoked(
    names: &Names<'_>,
    rates: &mut [usize],
    tasks: &mut [usize],
    known: Known,
    row: &[usize; 16],
) -> Result<Turn, Refusal>
    ensures told { Right names.now → result ≡ turn_of names.now.rows (first (call_checks (rows_of names.now) (twice_of (take (one_more activity_room known.calls) tasks.new) == known.calls) (task_named names.now.text.now (rows_of names.now) (name_at row.now 5)) (name_at row.now 5) (slice_index row.now 7))) (invoked_by known (task_named names.now.text.now (rows_of names.now) (name_at row.now 5)).value) }
    ensures arrays { Right names.now → (rates.new ≡ slice_set rates.old known.calls known.frequency) × (tasks.new ≡ slice_set tasks.old known.calls (task_named names.now.text.now (rows_of names.now) (name_at row.now 5)).value) }
{
    let name = kept::first_name(row);
    let task = meanings::task_named(names.text, names.cells, names.rows, name);
    let next = known.invoked(task.value);
    laying::put(rates, known.calls, known.frequency);
    laying::put(tasks, known.calls, task.value);
    let again = acts::twice_of(laying::front(tasks, next.calls)) == known.calls;
    acts::call_rules(names, again, task, name, row[7])?;
    Ok(Turn {
        rows: names.rows,
        known: next,
    })
}

// An argument of a task.
pub(crate) fn argued(names: &Names<'_>, known: Known, row: &[usize; 16]) -> Result<Turn, Refusal>
    ensures { Right names.now → result ≡ turn_of names.now.rows (first (port_rules names.now.text.now (rows_of names.now) (slice_index_or (types (is_port_of (task_scope known.task) input_sort) (rows_of names.now)) known.index no_type) (port_at row.now 5))) (argued_by known) }
{
    let scope = Scope::OfTask(known.task);
    let input = Sought::PortOf { scope, sort: 5 };
    let wanted = names::type_of(names.cells, names.rows, input, known.index);
    names.port_rules(wanted, kept::first_port(row))?;
    Ok(Turn {
        rows: names.rows,
        known: known.argued(),
    })
}

// An actuator that is updated: the same of the actuators.
pub(crate) fn updated(
    names: &Names<'_>,
    aims: &mut [usize],
    known: Known,
    row: &[usize; 16],
) -> Result<Turn, Refusal>
    ensures told { Right names.now → result ≡ turn_of names.now.rows (first (update_checks (twice_of (take (one_more activity_room known.updates) aims.new) == known.updates) (actuator_named names.now.text.now (rows_of names.now) (name_at row.now 5)) (name_at row.now 5) ++ port_rules names.now.text.now (rows_of names.now) (actuator_named names.now.text.now (rows_of names.now) (name_at row.now 5)).typ (port_at row.now 7))) (updated_by known) }
    ensures arrays { Right names.now → aims.new ≡ slice_set aims.old known.updates (actuator_named names.now.text.now (rows_of names.now) (name_at row.now 5)).value }
{
    let name = kept::first_name(row);
    let scope = Scope::Numbered(0);
    let actuator = meanings::named(names.text, names.cells, names.rows, scope, 2, name);
    let next = known.updated();
    laying::put(aims, known.updates, actuator.value);
    let again = acts::twice_of(laying::front(aims, next.updates)) == known.updates;
    acts::update_rules(names, again, actuator, name, kept::second_port(row))?;
    Ok(Turn {
        rows: names.rows,
        known: next,
    })
}

// The target of a switch, with the items from here on, the first of which is item k.
pub(crate) fn switched(
    names: &Names<'_>,
    memo: &[usize],
    k: usize,
    state: usize,
    at: usize,
    known: Known,
    row: &[usize; 16],
) -> Result<Turn, Refusal>
    ensures { Right names.now → Kept names.now.text.now memo.now → result ≡ turn_of names.now.rows (first (target_checks (is_target names.now.text.now (rows_of names.now) (items_from names.now.text.now (state_of state) at) (name_at row.now 5)) (name_at row.now 5))) (switched_by known) }
{
    let name = kept::first_name(row);
    let mode = targets::is_mode(names, memo, k, kept::state_of(state), at, name);
    acts::target_rules(mode, name)?;
    Ok(Turn {
        rows: names.rows,
        known: known.switched(),
    })
}

// The end of the text.
pub(crate) fn ended(n: usize, known: Known, at: usize) -> Result<Turn, Refusal>
    ensures { result ≡ turn_of n (first (end_rules known.started at)) known }
{
    activities::end_rules(known.started, at)?;
    Ok(Turn { rows: n, known })
}

// What an activity does: a task invoked and its sources, an actuator updated, a switch of the mode; and the end of a task.
ghost use Rattle.std.specs.Prelude.{◌≡◌, ℕ, List};
ghost use Rattle.text.specs.declared.Item.TheVariants.{TaskEnd, Invoke, Arg, Update, Switch};
ghost use Rattle.refusals.specs.declared.Row.{Row};
ghost use Rattle.text.specs.declared.Name.{Name as TextName};
ghost use Rattle.names.specs.Tables.{rows_in};
ghost use Rattle.names.specs.Index.{Indexed};
ghost use Rattle.sheets.specs.Sheets.{sheet_of, planned, SameArrays};

use super::rows;
use heads::counts::{act_done, guard_cell};
use heads::numbers::clamp;
use names::Scope;
use sheets::{Arrays, Filled, Opened, Plan};
use text::{Name, Port};

// A task's end: its termination stands behind those before, and before all drivers of modes.
pub fn task_ended(arrays: &mut Arrays)
    ensures done { (s : List ℕ) (all rows : List Row) (name : TextName) → sheet_of arrays.new ≡ planned s all rows (TaskEnd name) (sheet_of arrays.old) }
    ensures same { SameArrays arrays.new arrays.old }
{
    let Filled { tasks, drivers, .. } = arrays.plan.filled;
    rows::terminate(arrays.drivers, tasks, drivers.saturating_sub(tasks));
    arrays.plan.filled.tasks = tasks.saturating_add(1);
    arrays.plan.filled.drivers = drivers.saturating_add(1);
}

// A task invoked: its release is the last driver so far.
pub fn invoked(s: &[u8], cells: &[usize], n: usize, task: Name, arrays: &mut Arrays)
    ensures done { Indexed s.now cells.now → (all : List Row) (arguments : ℕ) → sheet_of arrays.new ≡ planned s.now all (rows_in cells.now n) (Invoke task arguments) (sheet_of arrays.old) }
    ensures same { SameArrays arrays.new arrays.old }
{
    let number = clamp(meanings::task_named(s, cells, n, task).value);
    let plan = arrays.plan;
    let Plan {
        filled,
        opened,
        acting,
    } = plan;
    rows::guard(arrays.guards, filled.guards, acting);
    let driver = filled.drivers as usize + opened.updates as usize + opened.calls as usize;
    rows::release(arrays.drivers, driver, number);
    rows::act(
        arrays.acts,
        filled.acts as usize + opened.calls as usize,
        opened.updates as usize + opened.switches as usize,
        [acting.frequency, guard_cell(acting, filled.guards), number],
    );
    arrays.plan = act_done(
        plan,
        Opened {
            calls: opened.calls.saturating_add(1),
            sources: 0,
            ..opened
        },
    );
}

// One source more for the task invoked last, where there is one.
pub fn source_read(s: &[u8], cells: &[usize], n: usize, port: Port, arrays: &mut Arrays)
    ensures done { Indexed s.now cells.now → (all : List Row) → sheet_of arrays.new ≡ planned s.now all (rows_in cells.now n) (Arg port) (sheet_of arrays.old) }
    ensures same { SameArrays arrays.new arrays.old }
{
    let Plan { filled, opened, .. } = arrays.plan;
    if 0 < opened.calls {
        let number = clamp(meanings::port_named(s, cells, n, port).value);
        let driver = filled.drivers as usize
            + opened.updates as usize
            + (opened.calls - 1) as usize;
        rows::source(arrays.drivers, driver, opened.sources, number);
        arrays.plan.opened = Opened {
            sources: opened.sources.saturating_add(1),
            ..opened
        };
    }
}

// An actuator updated: its driver stands behind those of the updates before, and before the releases.
pub fn updated(
    s: &[u8],
    cells: &[usize],
    n: usize,
    actuator: Name,
    source: Port,
    arrays: &mut Arrays,
)
    ensures done { Indexed s.now cells.now → (all : List Row) → sheet_of arrays.new ≡ planned s.now all (rows_in cells.now n) (Update actuator source) (sheet_of arrays.old) }
    ensures same { SameArrays arrays.new arrays.old }
{
    let from = clamp(meanings::port_named(s, cells, n, source).value);
    let to = clamp(meanings::named(s, cells, n, Scope::Numbered(0), 2, actuator).value);
    let plan = arrays.plan;
    let Plan {
        filled,
        opened,
        acting,
    } = plan;
    rows::guard(arrays.guards, filled.guards, acting);
    let driver = filled.drivers as usize + opened.updates as usize;
    rows::update(arrays.drivers, driver, opened.calls, from, to);
    rows::act(
        arrays.acts,
        filled.acts as usize + opened.calls as usize + opened.updates as usize,
        opened.switches as usize,
        [acting.frequency, guard_cell(acting, filled.guards), 0],
    );
    arrays.plan = act_done(
        plan,
        Opened {
            updates: opened.updates.saturating_add(1),
            ..opened
        },
    );
}

// A switch of the mode; its target is one of all modes of the text.
pub fn switched(s: &[u8], cells: &[usize], all: usize, name: Name, arrays: &mut Arrays)
    ensures done { Indexed s.now cells.now → (rows : List Row) → sheet_of arrays.new ≡ planned s.now (rows_in cells.now all) rows (Switch name) (sheet_of arrays.old) }
    ensures same { SameArrays arrays.new arrays.old }
{
    let target = clamp(meanings::named(s, cells, all, Scope::Numbered(0), 4, name).value);
    let plan = arrays.plan;
    let Plan {
        filled,
        opened,
        acting,
    } = plan;
    rows::guard(arrays.guards, filled.guards, acting);
    let works = opened.calls as usize + opened.updates as usize;
    rows::act(
        arrays.acts,
        filled.acts as usize + works + opened.switches as usize,
        0,
        [acting.frequency, guard_cell(acting, filled.guards), target],
    );
    arrays.plan = act_done(
        plan,
        Opened {
            switches: opened.switches.saturating_add(1),
            ..opened
        },
    );
}

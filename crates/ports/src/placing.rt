// What each declaration puts into the arrays, and what is counted behind it.
#![tactic(auto, unfolding(crate::specs::Boards::placed_by, layout::specs::Filling::stored))]

ghost use Rattle.std.specs.Prelude.{◌≡◌, List};
ghost use Rattle.text.specs.declared.Item.TheVariants.{Sensor, Actuator, TaskBegin, Input, Output, TaskEnd};
ghost use Rattle.kept.specs.Rows.{name_at, literal_at};
ghost use Rattle.names.specs.Tables.{rows_in};
ghost use Rattle.names.specs.Index.{Indexed};
ghost use Rattle.refusals.specs.declared.Row.{Row};
ghost use Rattle.text.specs.declared.Name.{Name as TextName};
ghost use Rattle.ports.specs.Boards.{board_in, placed_by, SameArrays};

use super::rows::{Role, one, port, start_word, two, type_word};
use super::{Arrays, Ports};
use heads::stores::store;
use text::Name;

pub(super) fn sensor(s: &[u8], typ: Name, name: Name, getter: Name, arrays: &mut Arrays)
    ensures done { (rows : List Row) → board_in arrays.new ≡ placed_by s.now rows (Sensor typ name getter) (board_in arrays.old) }
    ensures same { SameArrays arrays.new arrays.old }
{
    let counts = arrays.counts;
    two(s, counts.sensors, name, getter, arrays.sensors);
    port(Role::Sensor, type_word(s, typ), 0, arrays);
    arrays.counts = Ports {
        sensors: counts.sensors.saturating_add(1),
        ports: counts.ports.saturating_add(1),
        ..counts
    };
}

// An actuator, as its row has it.
pub(super) fn actuator(s: &[u8], cells: &[usize], n: usize, row: &[usize; 16], arrays: &mut Arrays)
    ensures done { Indexed s.now cells.now → board_in arrays.new ≡ placed_by s.now (rows_in cells.now n) (Actuator (name_at row.now 5) (name_at row.now 7) (literal_at row.now 9) (name_at row.now 14)) (board_in arrays.old) }
    ensures same { SameArrays arrays.new arrays.old }
{
    let counts = arrays.counts;
    let name = kept::second_name(row);
    let setter = kept::last_name(row);
    two(s, counts.actuators, name, setter, arrays.actuators);
    let typ = type_word(s, kept::first_name(row));
    let start = start_word(s, cells, n, kept::second_value(row));
    port(Role::Actuator, typ, start, arrays);
    arrays.counts = Ports {
        actuators: counts.actuators.saturating_add(1),
        ports: counts.ports.saturating_add(1),
        ..counts
    };
}

pub(super) fn task_begun(s: &[u8], name: Name, arrays: &mut Arrays)
    ensures done { (rows : List Row) → board_in arrays.new ≡ placed_by s.now rows (TaskBegin name) (board_in arrays.old) }
    ensures same { SameArrays arrays.new arrays.old }
{
    let counts = arrays.counts;
    one(s, counts.labels, name, arrays.tasks);
    arrays.counts = Ports {
        labels: counts.labels.saturating_add(1),
        first: counts.ports,
        inputs: 0,
        outputs: 0,
        ..counts
    };
}

pub(super) fn input(s: &[u8], typ: Name, arrays: &mut Arrays)
    ensures done { (rows : List Row) (name : TextName) → board_in arrays.new ≡ placed_by s.now rows (Input typ name) (board_in arrays.old) }
    ensures same { SameArrays arrays.new arrays.old }
{
    let counts = arrays.counts;
    port(Role::Input, type_word(s, typ), 0, arrays);
    arrays.counts = Ports {
        inputs: counts.inputs.saturating_add(1),
        ports: counts.ports.saturating_add(1),
        ..counts
    };
}

// An output, as its row has it.
pub(super) fn output(s: &[u8], cells: &[usize], n: usize, row: &[usize; 16], arrays: &mut Arrays)
    ensures done { Indexed s.now cells.now → board_in arrays.new ≡ placed_by s.now (rows_in cells.now n) (Output (name_at row.now 5) (name_at row.now 7) (literal_at row.now 9)) (board_in arrays.old) }
    ensures same { SameArrays arrays.new arrays.old }
{
    let counts = arrays.counts;
    one(s, counts.titles, kept::second_name(row), arrays.outputs);
    let typ = type_word(s, kept::first_name(row));
    let start = start_word(s, cells, n, kept::second_value(row));
    port(Role::Output, typ, start, arrays);
    arrays.counts = Ports {
        titles: counts.titles.saturating_add(1),
        outputs: counts.outputs.saturating_add(1),
        ports: counts.ports.saturating_add(1),
        ..counts
    };
}

// A task's end names its function and puts the task's row.
pub(super) fn task_ended(s: &[u8], function: Name, arrays: &mut Arrays)
    ensures done { (rows : List Row) → board_in arrays.new ≡ placed_by s.now rows (TaskEnd function) (board_in arrays.old) }
    ensures same { SameArrays arrays.new arrays.old }
{
    let counts = arrays.counts;
    one(s, counts.labels, function, arrays.tasks);
    let outputs = counts.first.saturating_add(counts.inputs);
    store(
        arrays.rows,
        counts.tasks as usize * 4,
        &[counts.first, counts.inputs, outputs, counts.outputs],
    );
    arrays.counts = Ports {
        tasks: counts.tasks.saturating_add(1),
        labels: counts.labels.saturating_add(1),
        ..counts
    };
}

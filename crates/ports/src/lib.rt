// What the declarations of a text put into the arrays of a table: names, ports and the rows of tasks.
// Promises: for every text, table of names with a right index, row of an item and array, each cell is what the definition of that item puts there (specs/), and nothing else changes.
// Builds on the rows of kept items, on what names and values mean, on the cells of heads and on the layout of a table.
#![tactic(auto)]

ghost use Rattle.std.specs.Prelude.{◌≡◌};
ghost use Rattle.kept.specs.Rows.{fields_in, item_of};
ghost use Rattle.names.specs.Tables.{rows_in};
ghost use Rattle.names.specs.Index.{Indexed};
ghost use Rattle.ports.specs.Boards.{board_in, placed_by, SameArrays};
ghost use Rattle.ports.specs.Late.{late as late_of};

use text::State;

mod placing;
mod rows;

// How many there are so far: sensors, actuators, tasks that are complete, rows of tasks' names, rows of outputs' names, and ports; then of the
// task under way its first port, and how many inputs and outputs it has.
#[derive(Clone, Copy)]
pub struct Ports {
    pub sensors: u32,
    pub actuators: u32,
    pub tasks: u32,
    pub labels: u32,
    pub titles: u32,
    pub ports: u32,
    pub first: u32,
    pub inputs: u32,
    pub outputs: u32,
}

// What is counted, and the arrays that are filled: names of the module, of sensors, actuators, tasks and outputs; what each port is, its type, what it
// holds at the beginning; the rows of tasks.
#[derive(Drop)]
pub struct Arrays<'a> {
    pub counts: Ports,
    pub title: &'a mut [u8],
    pub sensors: &'a mut [u8],
    pub actuators: &'a mut [u8],
    pub tasks: &'a mut [u8],
    pub outputs: &'a mut [u8],
    pub roles: &'a mut [u32],
    pub types: &'a mut [u32],
    pub starts: &'a mut [u32],
    pub rows: &'a mut [u32],
}

// Whether from a state on no item puts anything into the arrays: behind the first mode's begin nothing is declared.
pub fn late(state: State) -> bool
    ensures { result ≡ late_of state }
{
    match state {
        State::Begin | State::Task(_) => false,
        State::Module(section) => 5 < section,
        State::Mode(_) | State::Act(_) | State::Guarded(_) | State::GuardArgs(_) => true,
        State::Args | State::Finish => true,
    }
}

// The item of a row put into the arrays, where the first n rows of the table of names stand before it.
pub fn placed(s: &[u8], cells: &[usize], n: usize, row: &[usize; 16], arrays: &mut Arrays)
    ensures done { Indexed s.now cells.now → board_in arrays.new ≡ placed_by s.now (rows_in cells.now n) (item_of (fields_in row.now)) (board_in arrays.old) }
    ensures same { SameArrays arrays.new arrays.old }
{
    let first = kept::first_name(row);
    // A kind is a number here, as the lent array keeps it (kept/specs/Kinds).
    match row[0] {
        0 => rows::name_row(s, first, 0, arrays.title),
        3 => placing::sensor(
            s,
            first,
            kept::second_name(row),
            kept::third_name(row),
            arrays,
        ),
        4 => placing::actuator(s, cells, n, row, arrays),
        5 => placing::task_begun(s, first, arrays),
        6 => placing::input(s, first, arrays),
        7 => placing::output(s, cells, n, row, arrays),
        8 => placing::task_ended(s, first, arrays),
        _ => {}
    }
}

// The walk that fills the arrays of declarations.
ghost use Rattle.std.specs.Prelude.{◌≡◌};
ghost use Rattle.text.specs.Items.{items_of};
ghost use Rattle.kept.specs.Kept.{Kept};
ghost use Rattle.names.specs.Index.{Indexed};
ghost use Rattle.ports.specs.Boards.{board_in, board_of, SameArrays};
ghost use Rattle.ports.specs.Placing.{no_ports};
ghost use Rattle.build.specs.Walks.{board_run};

use super::rows;
use ports::{Arrays, Ports};

fn nothing() -> Ports
    ensures { result ≡ no_ports }
{
    Ports {
        sensors: 0,
        actuators: 0,
        tasks: 0,
        labels: 0,
        titles: 0,
        ports: 0,
        first: 0,
        inputs: 0,
        outputs: 0,
    }
}

// Every item of a text, as it is kept, put into the arrays.
fn walk(s: &[u8], memo: &[usize], cells: &[usize], arrays: &mut Arrays)
    ensures run { Kept s.now memo.now → Indexed s.now cells.now → board_in arrays.new ≡ board_run s.now cells.now 0 (items_of s.now) (board_in arrays.old) }
    ensures same { SameArrays arrays.new arrays.old }
{
    let mut row = [0; 16];
    let mut state = 0;
    let mut at = 0;
    let mut n = 0;
    let mut k = 0;
    let mut kind = 0;
    while at <= s.len() {
        if kind == 9 && ports::late(kept::state_of(state)) {
            return;
        }
        kept::fetch(s, memo, k, state, at, &mut row);
        ports::placed(s, cells, n, &row, arrays);
        kind = row[0];
        if rows::over(kind, row[4], at) {
            return;
        }
        n += rows::declaring(kind);
        k += 1;
        state = row[3];
        at = row[4];
    }
}

// Every item of a text, as it is kept, put into the arrays of declarations.
// Each array is a parameter of its own: the caller, which lent them, would spell the same names in a struct.
pub fn declared(
    s: &[u8],
    memo: &[usize],
    cells: &[usize],
    name: &mut [u8],
    sensor_names: &mut [u8],
    actuator_names: &mut [u8],
    task_names: &mut [u8],
    output_names: &mut [u8],
    roles: &mut [u32],
    types: &mut [u32],
    starts: &mut [u32],
    task_rows: &mut [u32],
) -> Ports
    ensures { Kept s.now memo.now → Indexed s.now cells.now → board_of result name.new sensor_names.new actuator_names.new task_names.new output_names.new roles.new types.new starts.new task_rows.new ≡ board_run s.now cells.now 0 (items_of s.now) (board_of no_ports name.old sensor_names.old actuator_names.old task_names.old output_names.old roles.old types.old starts.old task_rows.old) }
{
    let mut arrays = Arrays {
        counts: nothing(),
        title: name,
        sensors: sensor_names,
        actuators: actuator_names,
        tasks: task_names,
        outputs: output_names,
        roles,
        types,
        starts,
        rows: task_rows,
    };
    walk(s, memo, cells, &mut arrays);
    arrays.counts
}

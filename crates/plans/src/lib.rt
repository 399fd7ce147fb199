// Modes, guards, activities and drivers of a module, filled item by item into the arrays of its table and into the rows that code generation takes.
// Promises that each item, as a row of sixteen numbers, changes the arrays as the definition says (crate sheets), for every input with a table of names whose index is right for the text.
// Builds on sheets, heads and entries, and on the rows of kept items.
#![tactic(auto)]

ghost use Rattle.std.specs.Prelude.{◌≡◌, ◌<◌, get_or};
ghost use Rattle.kept.specs.Rows.{fields_in, item_of, name_at, port_at};
ghost use Rattle.names.specs.Tables.{rows_in};
ghost use Rattle.names.specs.Index.{Indexed};
ghost use Rattle.sheets.specs.Sheets.{sheet_of, planned as planned_by, SameArrays};

use entries::{acts, modes};
use sheets::Arrays;
use text::{Name, Port};

// A number of a row; past its end stands 0.
fn cell(row: &[usize], at: usize) -> usize
    ensures { result ≡ get_or row.now at 0 }
{
    if at < row.len() { row[at] } else { 0 }
}

// A name, and a port, from a place of a row on.
fn name(row: &[usize], at: usize) -> Name
    requires { at < 16 }
    ensures { result ≡ name_at row.now at }
{
    Name {
        start: cell(row, at),
        end: cell(row, at + 1),
    }
}

fn port(row: &[usize], at: usize) -> Port
    requires { at < 8 }
    ensures { result ≡ port_at row.now at }
{
    Port {
        first: name(row, at),
        second: name(row, at + 2),
        dotted: cell(row, at + 4) == 1,
    }
}

// The arrays and what is kept, behind the item of a row that stands behind the first n of all rows of names: a task's end, a mode's begin, an activity,
// a guard, its operand, an invocation, its argument, an update, a switch, or a mode's end; another changes nothing.
pub fn planned(s: &[u8], cells: &[usize], n: usize, all: usize, row: &[usize], arrays: &mut Arrays)
    ensures done { Indexed s.now cells.now → sheet_of arrays.new ≡ planned_by s.now (rows_in cells.now all) (rows_in cells.now n) (item_of (fields_in row.now)) (sheet_of arrays.old) }
    ensures same { SameArrays arrays.new arrays.old }
{
    let plan = arrays.plan;
    // A kind is a number here, as the lent array keeps it (kept/specs/Kinds).
    match cell(row, 0) {
        8 => acts::task_ended(arrays),
        9 => {
            arrays.plan = heads::counts::mode_begun(
                s,
                plan,
                cell(row, 7) == 1,
                name(row, 5),
                name(row, 9),
                cell(row, 11) == 1,
            );
        }
        10 => arrays.plan = heads::activity_begun(s, plan, name(row, 5)),
        11 => arrays.plan = heads::guard_named(s, plan, name(row, 5)),
        12 => arrays.plan = heads::operand_read(s, cells, n, plan, port(row, 5)),
        13 => acts::invoked(s, cells, n, name(row, 5), arrays),
        14 => acts::source_read(s, cells, n, port(row, 5), arrays),
        15 => acts::updated(s, cells, n, name(row, 5), port(row, 7), arrays),
        16 => acts::switched(s, cells, all, name(row, 5), arrays),
        17 => modes::mode_ended(s, arrays),
        _ => {}
    }
}

// The items before the modes: what each breaks, and the name that it enters.
ghost use Rattle.std.specs.Prelude.{◌≡◌, ℕ, Bool, [], ◌∷◌, ◌++◌};
ghost use Rattle.text.specs.declared.Name.{Name};
ghost use Rattle.text.specs.declared.Item.TheVariants.{Constant, Sensor, Actuator, TaskBegin, Input, Output, ModeBegin};
ghost use Rattle.refusals.specs.Checks.{first};
ghost use Rattle.refusals.specs.Names.{no_type};
ghost use Rattle.refusals.specs.Refusals.{long_name};
ghost use Rattle.refusals.specs.Values.{type_named, type_rules, value_rules};
ghost use Rattle.refusals.specs.Declarations.{new_rules, new_port_rules};
ghost use Rattle.kept.specs.Rows.{name_at, literal_at};
ghost use Rattle.names.specs.Index.{Indexed, Declared};
ghost use Rattle.names.specs.Tables.{rows_in};
ghost use Rattle.rules.specs.Going.{turn_of, Enters, Told};

use super::Turn;
use judging::Names;
use meanings::declaring;
use names::Sought;
use noting::Known;
use refusals::Row;
use text::{Name, Refusal};

// An item of which only its name is judged.
pub(crate) fn called(n: usize, known: Known, row: &[usize; 16]) -> Result<Turn, Refusal>
    ensures { result ≡ turn_of n (first (long_name (name_at row.now 5) ∷ [])) known }
{
    judging::name_rules(kept::first_name(row))?;
    Ok(Turn { rows: n, known })
}

// A constant.
pub(crate) fn constant(
    s: &[u8],
    cells: &mut [usize],
    n: usize,
    known: Known,
    row: &[usize; 16],
) -> Result<Turn, Refusal>
    ensures { Indexed s.now cells.old → Told s.now cells.old n (Constant (name_at row.now 5) (literal_at row.now 7)) (first (new_rules s.now (rows_in cells.old n) 0 (name_at row.now 5) ++ value_rules s.now (rows_in cells.old n) no_type (literal_at row.now 7))) known result cells.new }
{
    let name = kept::first_name(row);
    let value = kept::first_value(row);
    let names = Names {
        text: s,
        cells,
        rows: n,
    };
    names.constant_rules(name, value)?;
    let typ = meanings::literal_type(s, cells, n, value);
    let word = meanings::literal_word(s, cells, n, value);
    let constant = declaring::row_of(name, 0, 0, typ, word);
    Ok(Turn {
        rows: names::declare(s, cells, n, constant),
        known,
    })
}

// A sensor.
pub(crate) fn sensor(
    s: &[u8],
    cells: &mut [usize],
    n: usize,
    known: Known,
    row: &[usize; 16],
) -> Result<Turn, Refusal>
    ensures { Indexed s.now cells.old → Told s.now cells.old n (Sensor (name_at row.now 5) (name_at row.now 7) (name_at row.now 9)) (first (type_rules s.now (name_at row.now 5) ++ (new_rules s.now (rows_in cells.old n) 1 (name_at row.now 7) ++ (long_name (name_at row.now 9) ∷ [])))) known result cells.new }
{
    let typ = kept::first_name(row);
    let name = kept::second_name(row);
    let getter = kept::third_name(row);
    let names = Names {
        text: s,
        cells,
        rows: n,
    };
    names.sensor_rules(typ, name, getter)?;
    let port = declaring::port_row(s, cells, n, typ, name, 0, 1);
    Ok(Turn {
        rows: names::declare(s, cells, n, port),
        known,
    })
}

// An actuator.
pub(crate) fn actuator(
    s: &[u8],
    cells: &mut [usize],
    n: usize,
    known: Known,
    row: &[usize; 16],
) -> Result<Turn, Refusal>
    ensures { Indexed s.now cells.old → Told s.now cells.old n (Actuator (name_at row.now 5) (name_at row.now 7) (literal_at row.now 9) (name_at row.now 14)) (first (type_rules s.now (name_at row.now 5) ++ (new_rules s.now (rows_in cells.old n) 2 (name_at row.now 7) ++ (value_rules s.now (rows_in cells.old n) (type_named s.now (name_at row.now 5)) (literal_at row.now 9) ++ (long_name (name_at row.now 14) ∷ []))))) known result cells.new }
{
    let typ = kept::first_name(row);
    let name = kept::second_name(row);
    let value = kept::second_value(row);
    let setter = kept::last_name(row);
    let names = Names {
        text: s,
        cells,
        rows: n,
    };
    names.actuator_rules(typ, name, value, setter)?;
    let port = declaring::port_row(s, cells, n, typ, name, 0, 2);
    Ok(Turn {
        rows: names::declare(s, cells, n, port),
        known,
    })
}

// A task begins.
pub(crate) fn task(
    s: &[u8],
    cells: &mut [usize],
    n: usize,
    known: Known,
    row: &[usize; 16],
) -> Result<Turn, Refusal>
    ensures { Indexed s.now cells.old → Told s.now cells.old n (TaskBegin (name_at row.now 5)) (first (new_rules s.now (rows_in cells.old n) 3 (name_at row.now 5))) known result cells.new }
{
    let name = kept::first_name(row);
    let names = Names {
        text: s,
        cells,
        rows: n,
    };
    names.new_rules(3, name)?;
    let tasks = names::count(cells, n, Sought::Sort(3));
    let task = declaring::row_of(name, 0, 3, 2, tasks);
    Ok(Turn {
        rows: names::declare(s, cells, n, task),
        known,
    })
}

// An input of a task.
pub(crate) fn input(
    s: &[u8],
    cells: &mut [usize],
    n: usize,
    known: Known,
    row: &[usize; 16],
) -> Result<Turn, Refusal>
    ensures { Indexed s.now cells.old → Told s.now cells.old n (Input (name_at row.now 5) (name_at row.now 7)) (first (type_rules s.now (name_at row.now 5) ++ new_port_rules s.now (rows_in cells.old n) 5 (name_at row.now 7))) known result cells.new }
{
    let typ = kept::first_name(row);
    let name = kept::second_name(row);
    let names = Names {
        text: s,
        cells,
        rows: n,
    };
    names.input_rules(typ, name)?;
    let tasks = names::count(cells, n, Sought::Sort(3));
    let port = declaring::port_row(s, cells, n, typ, name, tasks, 5);
    Ok(Turn {
        rows: names::declare(s, cells, n, port),
        known,
    })
}

// An output of a task.
pub(crate) fn output(
    s: &[u8],
    cells: &mut [usize],
    n: usize,
    known: Known,
    row: &[usize; 16],
) -> Result<Turn, Refusal>
    ensures { Indexed s.now cells.old → Told s.now cells.old n (Output (name_at row.now 5) (name_at row.now 7) (literal_at row.now 9)) (first (type_rules s.now (name_at row.now 5) ++ (new_port_rules s.now (rows_in cells.old n) 6 (name_at row.now 7) ++ value_rules s.now (rows_in cells.old n) (type_named s.now (name_at row.now 5)) (literal_at row.now 9)))) known result cells.new }
{
    let typ = kept::first_name(row);
    let name = kept::second_name(row);
    let value = kept::second_value(row);
    let names = Names {
        text: s,
        cells,
        rows: n,
    };
    names.output_rules(typ, name, value)?;
    let tasks = names::count(cells, n, Sought::Sort(3));
    let port = declaring::port_row(s, cells, n, typ, name, tasks, 6);
    Ok(Turn {
        rows: names::declare(s, cells, n, port),
        known,
    })
}

// The table with the mode of this name; the number of its rows then.
pub(crate) fn mode_entered(s: &[u8], cells: &mut [usize], n: usize, name: Name) -> usize
    ensures { Indexed s.now cells.old → (start : Bool) (at : ℕ) (digits : Name) (milli : Bool) → Enters s.now cells.old n (ModeBegin start at name digits milli) cells.new result }
{
    let modes = names::count(cells, n, Sought::Sort(4));
    let mode = declaring::row_of(name, 0, 4, 2, modes);
    names::declare(s, cells, n, mode)
}

// A row of sixteen numbers from an item.
ghost use Rattle.std.specs.Prelude.{◌+◌, ◌%◌, ◌≤◌, eqb, length, get_or, ◌≡◌};
ghost use Rattle.std.proofs.lemmas.List.Edits.{sets};
ghost use Rattle.kept.specs.Rows.{name_of, name_at, literal_at, port_at};
ghost use Rattle.kept.specs.Cells.{name_cells, port_cells, value_cells};
ghost use Rattle.kept.specs.Kept.{Lies, Laid};

use super::states;
use text::{Item, Literal, Name, Port};

// What a pass goes on by: the kind of an item, the number of the state behind it, and the next place.
#[derive(Clone, Copy)]
pub(crate) struct Turn {
    pub(crate) kind: usize,
    pub(crate) number: usize,
    pub(crate) next: usize,
}

// The name of an item that has none.
const NAMELESS: Name = Name { start: 0, end: 0 };

// A name lies in two numbers: its start and its end.
fn put_name(row: &mut [usize], at: usize, name: Name)
    requires { at + 2 ≤ length row.old }
    ensures { row.new ≡ sets row.old at (name_cells name) }
{
    row[at] = name.start;
    row[at + 1] = name.end;
}

// A port lies in five numbers: both names, and whether it has a dot.
fn put_port(row: &mut [usize], at: usize, port: Port)
    requires { at + 5 ≤ length row.old }
    ensures { row.new ≡ sets row.old at (port_cells port) }
{
    put_name(row, at, port.first);
    put_name(row, at + 2, port.second);
    row[at + 4] = port.dotted as usize;
}

// A value lies in five numbers: which kind, its place, its flag, and its name or its digits.
fn put_value(row: &mut [usize], at: usize, value: Literal)
    requires { at + 5 ≤ length row.old }
    ensures { row.new ≡ sets row.old at (value_cells value) }
{
    let (kind, place, flag, name) = match value {
        Literal::Truth { at, yes } => (0, at, yes, NAMELESS),
        Literal::Number { at, digits, minus } => (1, at, minus, digits),
        Literal::Named(name) => (2, 0, false, name),
    };
    row[at] = kind;
    row[at + 1] = place;
    row[at + 2] = flag as usize;
    put_name(row, at + 3, name);
}

// A kind and a name.
fn named(row: &mut [usize], kind: usize, name: Name)
    requires { length row.old ≡ 16 }
    ensures { (get_or row.new 0 0 ≡ kind) × (name_at row.new 5 ≡ name) }
{
    row[0] = kind;
    put_name(row, 5, name);
}

// A kind, and no name.
fn plain(row: &mut [usize], kind: usize)
    requires { length row.old ≡ 16 }
    ensures { (get_or row.new 0 0 ≡ kind) × (name_at row.new 5 ≡ name_of 0 0) }
{
    named(row, kind, NAMELESS);
}

// A kind, a name, and a number.
fn counted(row: &mut [usize], kind: usize, name: Name, count: usize)
    requires { length row.old ≡ 16 }
    ensures { (get_or row.new 0 0 ≡ kind) × (name_at row.new 5 ≡ name) × (get_or row.new 7 0 ≡ count) }
{
    row[0] = kind;
    put_name(row, 5, name);
    row[7] = count;
}

// A kind and three names.
fn typed(row: &mut [usize], kind: usize, typ: Name, name: Name, last: Name)
    requires { length row.old ≡ 16 }
    ensures { (get_or row.new 0 0 ≡ kind) × (name_at row.new 5 ≡ typ) × (name_at row.new 7 ≡ name) × (name_at row.new 9 ≡ last) }
{
    row[0] = kind;
    put_name(row, 5, typ);
    put_name(row, 7, name);
    put_name(row, 9, last);
}

// A kind, two names, a value, and one name more.
fn long(row: &mut [usize], kind: usize, typ: Name, name: Name, value: Literal, last: Name)
    requires { length row.old ≡ 16 }
    ensures { (get_or row.new 0 0 ≡ kind) × (name_at row.new 5 ≡ typ) × (name_at row.new 7 ≡ name) × (literal_at row.new 9 ≡ value) × (name_at row.new 14 ≡ last) }
{
    row[0] = kind;
    put_name(row, 5, typ);
    put_name(row, 7, name);
    put_value(row, 9, value);
    put_name(row, 14, last);
}

fn constant(row: &mut [usize], name: Name, value: Literal)
    requires { length row.old ≡ 16 }
    ensures { (get_or row.new 0 0 ≡ 2) × (name_at row.new 5 ≡ name) × (literal_at row.new 7 ≡ value) }
{
    row[0] = 2;
    put_name(row, 5, name);
    put_value(row, 7, value);
}

fn mode(row: &mut [usize], start: bool, at: usize, name: Name, digits: Name, milli: bool)
    requires { length row.old ≡ 16 }
    ensures { (get_or row.new 0 0 ≡ 9) × (eqb (get_or row.new 7 0) 1 ≡ start) × (get_or row.new 8 0 ≡ at) × (name_at row.new 5 ≡ name) × (name_at row.new 9 ≡ digits) × (eqb (get_or row.new 11 0) 1 ≡ milli) }
{
    row[0] = 9;
    put_name(row, 5, name);
    row[7] = start as usize;
    row[8] = at;
    put_name(row, 9, digits);
    row[11] = milli as usize;
}

// A kind, a name, a byte and a place: an activity's digits and section, or a refusal's number and no name.
fn placed(row: &mut [usize], kind: usize, name: Name, byte: u8, at: usize)
    requires { length row.old ≡ 16 }
    ensures { (get_or row.new 0 0 ≡ kind) × (get_or row.new 7 0 % 256 ≡ byte) × (get_or row.new 8 0 ≡ at) × (name_at row.new 5 ≡ name) }
{
    counted(row, kind, name, byte as usize);
    row[8] = at;
}

// An argument of a task or of a guard.
fn argument(row: &mut [usize], kind: usize, port: Port)
    requires { length row.old ≡ 16 }
    ensures { (get_or row.new 0 0 ≡ kind) × (port_at row.new 5 ≡ port) }
{
    row[0] = kind;
    put_port(row, 5, port);
}

fn update(row: &mut [usize], actuator: Name, source: Port)
    requires { length row.old ≡ 16 }
    ensures { (get_or row.new 0 0 ≡ 15) × (name_at row.new 5 ≡ actuator) × (port_at row.new 7 ≡ source) }
{
    row[0] = 15;
    put_name(row, 5, actuator);
    put_port(row, 7, source);
}

// The kind and the numbers of an item.
fn lay(row: &mut [usize], item: Item)
    requires { length row.old ≡ 16 }
    ensures { Lies row.new item }
{
    match item {
        Item::Module(name) => named(row, 0, name),
        Item::Section => plain(row, 1),
        Item::Constant { name, value } => constant(row, name, value),
        Item::Sensor { typ, name, getter } => typed(row, 3, typ, name, getter),
        Item::Actuator {
            typ,
            name,
            value,
            setter,
        } => long(row, 4, typ, name, value, setter),
        Item::TaskBegin(name) => named(row, 5, name),
        Item::Input { typ, name } => typed(row, 6, typ, name, name),
        Item::Output { typ, name, value } => long(row, 7, typ, name, value, name),
        Item::TaskEnd(name) => named(row, 8, name),
        Item::ModeBegin {
            start,
            at,
            name,
            digits,
            milli,
        } => mode(row, start, at, name, digits, milli),
        Item::Activity { kind, at, digits } => placed(row, 10, digits, kind, at),
        Item::Guard { name, count } => counted(row, 11, name, count),
        Item::GuardArg(port) => argument(row, 12, port),
        Item::Invoke { task, count } => counted(row, 13, task, count),
        Item::Arg(port) => argument(row, 14, port),
        Item::Update { actuator, source } => update(row, actuator, source),
        Item::Switch(name) => named(row, 16, name),
        Item::ModeEnd => plain(row, 17),
        Item::ModuleEnd => plain(row, 18),
        Item::End => plain(row, 19),
        Item::No { number, at } => placed(row, 20, NAMELESS, number, at),
    }
}

// The row of the item at a place, in a state by its number; and what a pass goes on by.
pub(crate) fn read(s: &[u8], before: usize, at: usize, row: &mut [usize]) -> Turn
    requires { length row.old ≡ 16 }
    ensures { Laid s.now before at row.new result.kind result.number result.next }
{
    let read = items::item(s, states::state_of(before), at);
    lay(row, read.item);
    let number = states::number_of(read.state);
    row[1] = before;
    row[2] = at;
    row[3] = number;
    row[4] = read.next;
    Turn {
        kind: row[0],
        number,
        next: read.next,
    }
}

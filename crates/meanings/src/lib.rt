// What the text's names, digits and values mean among the names that are declared before them, and what an item declares.
// Promises that every answer is what the definitions of refusals say, for every text and every table whose index is right for it; a number is kept up to 4294967296.
// Builds on the table of names, the scanner, and what the rules say of a row.
#![tactic(auto)]

ghost use Rattle.std.specs.Prelude.{◌≡◌, min};
ghost use Rattle.refusals.specs.Names.{named as named_row};
ghost use Rattle.refusals.specs.Values.{number_of, type_named, int_word, literal_type, literal_word};
ghost use Rattle.refusals.specs.Ports.{task_named, output_of, port_named, argument_named};
ghost use Rattle.refusals.specs.Activities.{function_named};
ghost use Rattle.names.specs.Tables.{rows_in, scope_of};
ghost use Rattle.names.specs.Index.{Indexed};
ghost use Rattle.meanings.specs.Arguments.{plain_port};

use names::Scope;
use refusals::Row;
use text::{Literal, Name, Port};

pub mod declaring;

// The type that a name stands for, by its number in a row.
pub fn type_named(s: &[u8], name: Name) -> usize
    ensures { result ≡ type_named s.now name }
{
    if scan::same(s, name.start, name.end, b"int") {
        0
    } else if scan::same(s, name.start, name.end, b"boolean") {
        1
    } else {
        2
    }
}

// The guard's function that a name stands for, by its number in the table.
pub fn function_named(s: &[u8], name: Name) -> usize
    ensures { result ≡ function_named s.now name }
{
    if scan::same(s, name.start, name.end, b"isTrue") {
        0
    } else if scan::same(s, name.start, name.end, b"isFalse") {
        1
    } else if scan::same(s, name.start, name.end, b"less") {
        2
    } else if scan::same(s, name.start, name.end, b"equal") {
        3
    } else {
        4
    }
}

// The number that digits stand for, or 4294967296 where it is more.
pub fn number_of(s: &[u8], digits: Name) -> usize
    ensures { result ≡ min (number_of s.now digits) 4294967296 }
{
    scan::value(s, digits.start, digits.end) as usize
}

// What a name means in a scope where only this sort may stand.
pub fn named(s: &[u8], cells: &[usize], n: usize, scope: Scope, sort: usize, name: Name) -> Row
    ensures { Indexed s.now cells.now → result ≡ named_row s.now (rows_in cells.now n) (scope_of scope) sort name }
{
    let row = names::find(s, cells, n, scope, name.start, name.end);
    if row.sort == sort {
        row
    } else {
        names::unknown()
    }
}

// The task of a name.
pub fn task_named(s: &[u8], cells: &[usize], n: usize, name: Name) -> Row
    ensures { Indexed s.now cells.now → result ≡ task_named s.now (rows_in cells.now n) name }
{
    named(s, cells, n, Scope::Numbered(0), 3, name)
}

// The output of a name, of a task.
pub fn output_of(s: &[u8], cells: &[usize], n: usize, task: Row, name: Name) -> Row
    ensures { Indexed s.now cells.now → result ≡ output_of s.now (rows_in cells.now n) task name }
{
    if task.sort < 7 {
        named(s, cells, n, Scope::OfTask(task.value), 6, name)
    } else {
        names::unknown()
    }
}

// What is read at a port: a sensor, or a task's output behind a dot.
pub fn port_named(s: &[u8], cells: &[usize], n: usize, port: Port) -> Row
    ensures { Indexed s.now cells.now → result ≡ port_named s.now (rows_in cells.now n) port }
{
    let row = names::found(s, cells, n, 0, port.first.start, port.first.end);
    if port.dotted && row.sort == 3 {
        named(s, cells, n, Scope::OfTask(row.value), 6, port.second)
    } else if !port.dotted && row.sort == 1 {
        row
    } else {
        names::unknown()
    }
}

// What a guard's argument without a dot is: a constant or a sensor.
pub fn plain_argument(s: &[u8], cells: &[usize], n: usize, name: Name) -> Row
    ensures { Indexed s.now cells.now → result ≡ argument_named s.now (rows_in cells.now n) (plain_port name) }
{
    let row = names::found(s, cells, n, 0, name.start, name.end);
    if row.sort < 2 { row } else { names::unknown() }
}

// What a guard's argument is: a constant, or what is read at a port.
pub fn argument_named(s: &[u8], cells: &[usize], n: usize, port: Port) -> Row
    ensures { Indexed s.now cells.now → result ≡ argument_named s.now (rows_in cells.now n) port }
{
    if port.dotted {
        port_named(s, cells, n, port)
    } else {
        plain_argument(s, cells, n, port.first)
    }
}

// The type of a value as it is written.
pub fn literal_type(s: &[u8], cells: &[usize], n: usize, literal: Literal) -> usize
    ensures { Indexed s.now cells.now → result ≡ literal_type s.now (rows_in cells.now n) literal }
{
    match literal {
        Literal::Truth { .. } => 1,
        Literal::Number { .. } => 0,
        Literal::Named(name) => named(s, cells, n, Scope::Numbered(0), 0, name).typ,
    }
}

// The word of a number, in two's complement.
fn int_word(number: usize, minus: bool) -> usize
    ensures { result ≡ int_word number minus }
{
    if minus && 0 < number {
        4294967296usize.saturating_sub(number)
    } else {
        number
    }
}

// The word of a value as it is written, or 4294967296 where it is more.
pub fn literal_word(s: &[u8], cells: &[usize], n: usize, literal: Literal) -> usize
    ensures { Indexed s.now cells.now → result ≡ min (literal_word s.now (rows_in cells.now n) literal) 4294967296 }
{
    match literal {
        Literal::Truth { yes, .. } => usize::from(yes),
        Literal::Number { digits, minus, .. } => int_word(number_of(s, digits), minus),
        Literal::Named(name) => {
            let constant = named(s, cells, n, Scope::Numbered(0), 0, name);
            constant.value.min(4294967296)
        }
    }
}

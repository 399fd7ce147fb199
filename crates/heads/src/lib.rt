// What is kept of the heads of modes and activities, and of what they count, while the table is filled.
// Promises that every answer is what the definitions of sheets say, for every input; where names are looked up, for a table whose index is right for the text.
// Builds on sheets, on what names mean, and on cells.
#![tactic(auto)]

ghost use Rattle.std.specs.Prelude.{◌≡◌};
ghost use Rattle.refusals.specs.Values.{number_of};
ghost use Rattle.refusals.specs.Ports.{argument_named};
ghost use Rattle.refusals.specs.Activities.{function_named};
ghost use Rattle.names.specs.Tables.{rows_in};
ghost use Rattle.names.specs.Index.{Indexed};
ghost use Rattle.sheets.specs.Sheets.{cap, begun, function_cell, with_operand, with_acting, place_of, word_in};

use numbers::clamp;
use refusals::Row;
use sheets::{Acting, Plan};
use text::{Name, Port};

pub mod counts;
pub mod numbers;
pub mod stores;
pub mod titles;

// An activity of a frequency and a guard's function, without operands.
pub fn begin(frequency: u32, function: u32) -> Acting
    ensures { result ≡ begun frequency function }
{
    Acting {
        frequency,
        function,
        operands: 0,
        first_place: 0,
        first_word: 0,
        second_place: 0,
        second_word: 0,
    }
}

pub fn activity_begun(s: &[u8], plan: Plan, digits: Name) -> Plan
    ensures { result ≡ with_acting plan (begun (cap (number_of s.now digits)) 0) }
{
    let frequency = clamp(meanings::number_of(s, digits));
    Plan {
        acting: begin(frequency, 0),
        ..plan
    }
}

// A function's number and 1; one that is not given is the last.
fn function_cell(number: usize) -> u32
    ensures { result ≡ function_cell number }
{
    number.min(3) as u32 + 1
}

pub fn guard_named(s: &[u8], plan: Plan, name: Name) -> Plan
    ensures { result ≡ with_acting plan (begun plan.acting.frequency (function_cell (function_named s.now name))) }
{
    let function = function_cell(meanings::function_named(s, name));
    Plan {
        acting: begin(plan.acting.frequency, function),
        ..plan
    }
}

// An operand's place: 0 a port, 1 an int, 2 a boolean.
fn place_of(row: Row) -> u32
    ensures { result ≡ place_of row }
{
    match (row.sort, row.typ) {
        (0, 1) => 2,
        (0, _) => 1,
        _ => 0,
    }
}

// An operand's word, or its port.
fn word_in(row: Row) -> u32
    ensures { result ≡ word_in row }
{
    match (row.sort, row.typ) {
        (0, 1) => u32::from(row.value == 1),
        _ => clamp(row.value),
    }
}

// The activity with one operand more; only the first two are kept.
fn with_operand(acting: Acting, place: u32, word: u32) -> Acting
    ensures { result ≡ with_operand acting place word }
{
    if acting.operands == 0 {
        Acting {
            operands: 1,
            first_place: place,
            first_word: word,
            ..acting
        }
    } else if acting.operands == 1 {
        Acting {
            operands: 2,
            second_place: place,
            second_word: word,
            ..acting
        }
    } else {
        acting
    }
}

pub fn operand_read(s: &[u8], cells: &[usize], n: usize, plan: Plan, port: Port) -> Plan
    ensures { Indexed s.now cells.now → result ≡ with_acting plan (with_operand plan.acting (place_of (argument_named s.now (rows_in cells.now n) port)) (word_in (argument_named s.now (rows_in cells.now n) port))) }
{
    let row = meanings::argument_named(s, cells, n, port);
    Plan {
        acting: with_operand(plan.acting, place_of(row), word_in(row)),
        ..plan
    }
}

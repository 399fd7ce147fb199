// Guards: what stands in a table's rows, read on demand, and whether it holds where the ports hold these words.
// Promises: each answer is the definition's, for every row and every list of ports.
// Builds on the guards of model and on cells.
#![tactic(auto)]

ghost use Rattle.std.specs.Prelude.{◌≡◌};
ghost use Rattle.model.specs.Values.{word_of, operand_word, function_by, holds as holds_of};
ghost use Rattle.guards.specs.Rows.{operand_by, guard_in};

use model::{Function, Guard, Operand, Value};

pub fn word(value: Value) -> u32
    ensures { result ≡ word_of value }
{
    match value {
        Value::Int(number) => cells::word_of(number),
        Value::Flag(flag) => flag as u32,
    }
}

pub fn operand_word(ports: &[u32], operand: Operand) -> u32
    ensures { result ≡ operand_word ports.now operand }
{
    match operand {
        Operand::Port(number) => cells::at32(ports, number as usize),
        Operand::Fixed(value) => word(value),
    }
}

#[tactic(auto, unfolding(model::specs::Values::holds))]
pub fn holds(ports: &[u32], guard: Guard) -> bool
    ensures { result ≡ holds_of ports.now guard }
{
    let left = operand_word(ports, guard.first);
    let right = operand_word(ports, guard.second);
    match guard.function {
        Function::IsTrue => left == 1,
        Function::IsFalse => left == 0,
        Function::Less => cells::less(left, right),
        Function::Equal => left == right,
    }
}

pub fn function_by(number: u32) -> Function
    ensures { result ≡ function_by number }
{
    match number {
        0 => Function::IsTrue,
        1 => Function::IsFalse,
        2 => Function::Less,
        _ => Function::Equal,
    }
}

// An operand stands as its place, 0 port, 1 int, 2 boolean, and its word.
pub fn operand_by(place: u32, word: u32) -> Operand
    ensures { result ≡ operand_by place word }
{
    match place {
        0 => Operand::Port((word % 65536) as u16),
        1 => Operand::Fixed(Value::Int(cells::int_of(word))),
        _ => Operand::Fixed(Value::Flag(word == 1)),
    }
}

// The guard of a number, from rows of 6; past the room one that reads port 0.
pub fn guard_at(rows: &[u32], guard: u32) -> Guard
    ensures { result ≡ guard_in rows.now guard }
{
    if guard < 256 {
        let at = guard as usize * 6;
        Guard {
            function: function_by(cells::at32(rows, at)),
            first: operand_by(cells::at32(rows, at + 2), cells::at32(rows, at + 3)),
            second: operand_by(cells::at32(rows, at + 4), cells::at32(rows, at + 5)),
        }
    } else {
        Guard {
            function: Function::IsTrue,
            first: Operand::Port(0),
            second: Operand::Port(0),
        }
    }
}

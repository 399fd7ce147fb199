// What stands at the places of a row's item.
ghost use Rattle.std.specs.Prelude.{◌%◌, get_or, ◌≡◌};
ghost use Rattle.kept.specs.Rows.{name_at, literal_at, port_at};

use super::fetching;
use text::{Literal, Name, Port};

// The name that an item has first.
pub fn first_name(row: &[usize; 16]) -> Name
    ensures { result ≡ name_at row.now 5 }
{
    fetching::name(row, 5)
}

// The name behind the first one.
pub fn second_name(row: &[usize; 16]) -> Name
    ensures { result ≡ name_at row.now 7 }
{
    fetching::name(row, 7)
}

// A getter, or the digits of a mode's period.
pub fn third_name(row: &[usize; 16]) -> Name
    ensures { result ≡ name_at row.now 9 }
{
    fetching::name(row, 9)
}

// A setter.
pub fn last_name(row: &[usize; 16]) -> Name
    ensures { result ≡ name_at row.now 14 }
{
    fetching::name(row, 14)
}

// The value behind one name.
pub fn first_value(row: &[usize; 16]) -> Literal
    ensures { result ≡ literal_at row.now 7 }
{
    fetching::literal(row, 7)
}

// The value behind two names.
pub fn second_value(row: &[usize; 16]) -> Literal
    ensures { result ≡ literal_at row.now 9 }
{
    fetching::literal(row, 9)
}

// The port of an argument.
pub fn first_port(row: &[usize; 16]) -> Port
    ensures { result ≡ port_at row.now 5 }
{
    fetching::port(row, 5)
}

// The port behind one name.
pub fn second_port(row: &[usize; 16]) -> Port
    ensures { result ≡ port_at row.now 7 }
{
    fetching::port(row, 7)
}

// The section of an activity, or the number of a refusal.
pub fn section(row: &[usize; 16]) -> u8
    ensures { result ≡ get_or row.now 7 0 % 256 }
{
    (row[7] % 256) as u8
}

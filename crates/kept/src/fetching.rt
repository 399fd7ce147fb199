// What stands at the places of a row: names, ports and values.
ghost use Rattle.std.specs.Prelude.{◌+◌, ◌≤◌, length, get_or, ◌≡◌};
ghost use Rattle.kept.specs.Rows.{name_at, literal_at, port_at};

use text::{Literal, Name, Port};

pub(crate) fn name(row: &[usize], at: usize) -> Name
    requires { at + 2 ≤ length row.now }
    ensures { result ≡ name_at row.now at }
{
    Name {
        start: row[at],
        end: row[at + 1],
    }
}

pub(crate) fn port(row: &[usize], at: usize) -> Port
    requires { at + 5 ≤ length row.now }
    ensures { result ≡ port_at row.now at }
{
    Port {
        first: name(row, at),
        second: name(row, at + 2),
        dotted: row[at + 4] == 1,
    }
}

pub(crate) fn literal(row: &[usize], at: usize) -> Literal
    requires { at + 5 ≤ length row.now }
    ensures { result ≡ literal_at row.now at }
{
    let place = row[at + 1];
    let flag = row[at + 2] == 1;
    let digits = name(row, at + 3);
    match row[at] {
        0 => Literal::Truth {
            at: place,
            yes: flag,
        },
        1 => Literal::Number {
            at: place,
            digits,
            minus: flag,
        },
        _ => Literal::Named(digits),
    }
}

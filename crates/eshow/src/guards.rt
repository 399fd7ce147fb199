// GUARDS: the function of each and its operands, by numbers and, behind //, by names.
use super::names::Port;
use super::rows::{Guard, Operand};
use super::values::Value;
use std::io;
use std::io::Write;
use tables::Table;

// A port, which has the place 0, or a fixed value of the type that is one less than the place.
fn operand(
    output: &mut impl Write,
    table: &Table,
    operand: Operand,
    named: bool,
) -> io::Result<()> {
    let Operand { place, word } = operand;
    let port = Port::of(table, word);
    let value = Value {
        typ: place.saturating_sub(1),
        word,
    };
    match place {
        0 if named => write!(output, "{port}"),
        0 => write!(output, ".{word}"),
        _ => write!(output, "{value}"),
    }
}

// A guard up to its last parenthesis; its ports by names or by numbers.
fn said(output: &mut impl Write, table: &Table, number: u32, named: bool) -> io::Result<()> {
    let guard = Guard::of(table, number);
    let mut before = match guard.function {
        0 => "isTrue(",
        1 => "isFalse(",
        2 => "less(",
        _ => "equal(",
    };
    for &each in guard.operands() {
        write!(output, "{before}")?;
        operand(output, table, each, named)?;
        before = ", ";
    }
    write!(output, ")")
}

pub(crate) fn named(output: &mut impl Write, table: &Table, number: u32) -> io::Result<()> {
    said(output, table, number, true)
}

fn line(output: &mut impl Write, table: &Table, number: u32) -> io::Result<()> {
    write!(output, "  [{number:03}] ")?;
    said(output, table, number, false)?;
    write!(output, " //")?;
    named(output, table, number)?;
    writeln!(output)
}

pub(crate) fn list(output: &mut impl Write, table: &Table) -> io::Result<()> {
    writeln!(output, "GUARDS")?;
    for number in 0..table.guards {
        line(output, table, number)?;
    }
    Ok(())
}

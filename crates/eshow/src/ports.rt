// PORTS: what each is, its type, its name, what it holds at the beginning, and the host's function that reads or sets it.
use super::names::{self, Port};
use super::values::{Type, Value};
use std::io;
use std::io::Write;
use tables::Table;

// A port by its role; nothing for a number that no port has.
fn line(output: &mut impl Write, table: &Table, number: u32) -> io::Result<()> {
    let at = number as usize;
    let name = Port::of(table, number);
    let word = cells::at32(&table.types, at);
    let typ = Type(word);
    let start = Value {
        typ: word,
        word: cells::at32(&table.starts, at),
    };
    match cells::at32(&table.roles, at) {
        1 => {
            let getter = names::getter(table, number);
            writeln!(output, "  [{number:03}] sensor {typ} {name} uses {getter}")
        }
        2 => {
            let setter = names::setter(table, number.saturating_sub(table.sensors));
            writeln!(
                output,
                "  [{number:03}] actuator {typ} {name}:={start} uses {setter}"
            )
        }
        3 => writeln!(output, "  [{number:03}] input {typ} {name}"),
        4 => writeln!(output, "  [{number:03}] output {typ} {name}:={start}"),
        _ => Ok(()),
    }
}

pub(crate) fn list(output: &mut impl Write, table: &Table) -> io::Result<()> {
    writeln!(output, "PORTS")?;
    for number in 0..320 {
        line(output, table, number)?;
    }
    Ok(())
}

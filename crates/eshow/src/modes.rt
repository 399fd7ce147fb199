// MODES: the name of each, whether it is the start mode, its period and where its code begins.
use super::names;
use super::rows::Mode;
use std::io;
use std::io::Write;
use tables::Table;

fn line(output: &mut impl Write, table: &Table, number: u32) -> io::Result<()> {
    let mode = Mode::of(table, number);
    let name = names::mode(table, number);
    let start = mode.start != 0;
    let period = mode.period;
    let begin = mode.begin;
    writeln!(
        output,
        "  [{number:03}] name={name}, start={start}, period={period}, pcBegin={begin}"
    )
}

pub(crate) fn list(output: &mut impl Write, table: &Table) -> io::Result<()> {
    writeln!(output, "MODES")?;
    for number in 0..table.modes {
        line(output, table, number)?;
    }
    Ok(())
}

// The first mode whose code begins at a place.
pub(crate) fn beginning(table: &Table, place: u32) -> Option<u32> {
    (0..table.modes).find(|&number| Mode::of(table, number).begin == place)
}

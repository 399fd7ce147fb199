// ECODES: each instruction with its arguments and, behind //, what it does.
use super::{drivers, guards, modes, names, rows};
use std::io;
use std::io::Write;
use tables::Table;

fn nop(output: &mut impl Write, marker: u32) -> io::Result<()> {
    match marker {
        1 => writeln!(output, "nop 1 //end of task terminations"),
        2 => writeln!(output, "nop 2 //end of actuator updates"),
        _ => writeln!(output, "nop {marker}"),
    }
}

fn test(output: &mut impl Write, table: &Table, guard: u32, place: u32) -> io::Result<()> {
    write!(output, "if {guard}, {place} //guard: ")?;
    guards::named(output, table, guard)?;
    writeln!(output, ", else {place}")
}

// A jump, and the mode whose code it begins again.
fn jump(output: &mut impl Write, table: &Table, place: u32) -> io::Result<()> {
    match modes::beginning(table, place) {
        Some(number) => {
            let mode = names::mode(table, number);
            writeln!(output, "jump {place} //next cycle: {mode}")
        }
        None => writeln!(output, "jump {place}"),
    }
}

fn line(output: &mut impl Write, table: &Table, number: u32) -> io::Result<()> {
    let [opcode, first, second] = rows::instruction(table, number);
    write!(output, "  [{number:03}] ")?;
    match opcode {
        0 => nop(output, first),
        1 => writeln!(
            output,
            "future {first}, {second} //next block in {second} us"
        ),
        2 => drivers::call(output, table, first),
        3 => {
            let function = names::function(table, first);
            writeln!(output, "release {first} //uses: {function}")
        }
        4 => test(output, table, first, second),
        5 => jump(output, table, first),
        6 => writeln!(output, "return"),
        _ => {
            let mode = names::mode(table, first);
            writeln!(output, "switch {first} //mode switch -> {mode}")
        }
    }
}

pub(crate) fn list(output: &mut impl Write, table: &Table) -> io::Result<()> {
    writeln!(output, "ECODES")?;
    for number in 0..table.instructions {
        line(output, table, number)?;
    }
    Ok(())
}

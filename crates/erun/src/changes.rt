// What a call changed, and the whole machine, a line each.
use super::names;
use calls::Standing;
use emachine::Machine;
use std::io;
use std::io::Write;
use tables::Table;

// A list by its name: the tasks of a word, or `-`.
fn list(output: &mut impl Write, name: &str, table: &Table, word: u64) -> io::Result<()> {
    write!(output, "{name}")?;
    if word == 0 {
        return writeln!(output, " -");
    }
    for task in 0..64u32 {
        if (word >> task) & 1 == 1 {
            write!(output, " ")?;
            names::task(output, table, task)?;
        }
    }
    writeln!(output)
}

// ---- what changed

fn number(output: &mut impl Write, name: &str, old: u32, new: u32) -> io::Result<()> {
    if old != new {
        writeln!(output, "  {name} {old} -> {new}")?;
    }
    Ok(())
}

fn mode(output: &mut impl Write, table: &Table, old: u32, new: u32) -> io::Result<()> {
    if old != new {
        write!(output, "  mode ")?;
        names::mode(output, table, old)?;
        write!(output, " -> ")?;
        names::mode(output, table, new)?;
        writeln!(output)?;
    }
    Ok(())
}

// The ports that changed.
fn ports(output: &mut impl Write, table: &Table, old: &[u32], new: &[u32]) -> io::Result<()> {
    for number in 0..names::ports(table) {
        let place = number as usize;
        let was = cells::at32(old, place);
        let is = cells::at32(new, place);
        if was != is {
            let typ = cells::at32(&table.types, place);
            write!(output, "  ")?;
            names::port(output, table, number)?;
            writeln!(
                output,
                " {} -> {}",
                names::Value { typ, word: was },
                names::Value { typ, word: is }
            )?;
        }
    }
    Ok(())
}

// What changed since a machine stood so, with these words in its ports.
pub(super) fn since(
    output: &mut impl Write,
    old: Standing,
    held: &[u32; 320],
    machine: &Machine,
) -> io::Result<()> {
    let table = &machine.table;
    let new = machine.standing;
    number(output, "count", old.clock, new.clock)?;
    number(output, "remaining", old.remaining, new.remaining)?;
    mode(output, table, old.mode, new.mode)?;
    ports(output, table, held, &machine.ports)?;
    if old.out != new.out {
        list(output, "  out:", table, new.out)?;
    }
    if old.waiting != new.waiting {
        list(output, "  waiting:", table, new.waiting)?;
    }
    if old.stopped != new.stopped {
        writeln!(output, "  stopped: yes")?;
    }
    Ok(())
}

// ---- all of it

// The clock, the mode, the lists of tasks, whether the machine is stopped, and every port and what it holds.
pub(super) fn all(output: &mut impl Write, machine: &Machine) -> io::Result<()> {
    let table = &machine.table;
    let seen = machine.standing;
    write!(
        output,
        "count {}\nremaining {}\nmode ",
        seen.clock, seen.remaining
    )?;
    names::mode(output, table, seen.mode)?;
    writeln!(output)?;
    list(output, "out:", table, seen.out)?;
    list(output, "waiting:", table, seen.waiting)?;
    writeln!(
        output,
        "stopped: {}",
        if seen.stopped { "yes" } else { "no" }
    )?;
    for number in 0..names::ports(table) {
        let place = number as usize;
        let typ = cells::at32(&table.types, place);
        let word = cells::at32(&machine.ports, place);
        names::port(output, table, number)?;
        writeln!(output, " {}", names::Value { typ, word })?;
    }
    Ok(())
}

// DRIVERS: what each copies where, by numbers and, behind //, by names.
use super::names::{self, Port};
use super::rows::{Driver, Task};
use std::io;
use std::io::Write;
use tables::Table;

// A release's copies by numbers, from its task's first input on.
fn copies(output: &mut impl Write, table: &Table, driver: &Driver) -> io::Result<()> {
    let first = Task::of(table, driver.target).first_input;
    for (input, source) in (first..u32::MAX).zip(driver.sources()) {
        write!(output, " {input}:={source}")?;
    }
    Ok(())
}

// A release's sources by names.
fn arguments(output: &mut impl Write, table: &Table, driver: &Driver) -> io::Result<()> {
    let mut comma = "";
    for &source in driver.sources() {
        let port = Port::of(table, source);
        write!(output, "{comma}{port}")?;
        comma = ", ";
    }
    Ok(())
}

fn release(output: &mut impl Write, table: &Table, driver: &Driver) -> io::Result<()> {
    let task = driver.target;
    let name = names::task(table, task);
    write!(output, "tag=release, taskID={task}, assign:")?;
    copies(output, table, driver)?;
    write!(output, " //{name}(")?;
    arguments(output, table, driver)?;
    writeln!(output, ")")
}

fn update(output: &mut impl Write, table: &Table, driver: &Driver) -> io::Result<()> {
    let actuator = driver.target;
    let source = driver.source();
    let to = Port::of(table, actuator);
    let from = Port::of(table, source);
    writeln!(
        output,
        "tag=actuator, actPortID={actuator}, srcPortID={source} //{to} := {from}"
    )
}

fn line(output: &mut impl Write, table: &Table, number: u32) -> io::Result<()> {
    let driver = Driver::of(table, number);
    write!(output, "  [{number:03}] ")?;
    match driver.tag {
        3 => update(output, table, &driver),
        4 => release(output, table, &driver),
        _ => {
            let task = driver.target;
            let name = names::task(table, task);
            writeln!(output, "tag=terminate, taskID={task} //{name}")
        }
    }
}

pub(crate) fn list(output: &mut impl Write, table: &Table) -> io::Result<()> {
    writeln!(output, "DRIVERS")?;
    for number in 0..table.drivers {
        line(output, table, number)?;
    }
    Ok(())
}

// What a call of a driver does.
pub(crate) fn call(output: &mut impl Write, table: &Table, number: u32) -> io::Result<()> {
    let driver = Driver::of(table, number);
    let task = names::task(table, driver.target);
    match driver.tag {
        3 => {
            let to = Port::of(table, driver.target);
            let from = Port::of(table, driver.source());
            writeln!(output, "call {number} //actuator update: {to} := {from}")
        }
        4 => writeln!(output, "call {number} //release task: {task}"),
        _ => writeln!(output, "call {number} //terminate task: {task}"),
    }
}

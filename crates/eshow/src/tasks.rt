// TASKS: the ports of each, and the host's function that runs it.
use super::names;
use super::rows::Task;
use std::io::Write;
use std::{fmt, io};
use tables::Table;

// So many ports from a first on, a blank before each.
#[derive(Clone, Copy)]
struct Ports {
    first: u32,
    many: u32,
}

impl fmt::Display for Ports {
    fn fmt<W: fmt::Write>(&self, f: &mut fmt::Formatter<W>) -> fmt::Result {
        for port in self.first..self.first.saturating_add(self.many) {
            write!(f, " {port}")?;
        }
        Ok(())
    }
}

fn line(output: &mut impl Write, table: &Table, number: u32) -> io::Result<()> {
    let task = Task::of(table, number);
    let inputs = Ports {
        first: task.first_input,
        many: task.inputs,
    };
    let outputs = Ports {
        first: task.first_output,
        many: task.outputs,
    };
    let name = names::task(table, number);
    let function = names::function(table, number);
    writeln!(
        output,
        "  [{number:03}] {name}, input{inputs}, output{outputs}"
    )?;
    writeln!(output, "    uses {function}{inputs}{outputs}")
}

pub(crate) fn list(output: &mut impl Write, table: &Table) -> io::Result<()> {
    writeln!(output, "TASKS")?;
    for number in 0..table.tasks {
        line(output, table, number)?;
    }
    Ok(())
}

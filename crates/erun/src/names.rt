// The names of a table's tasks, modes and ports, and values, as the trace says them.
use naming::Names;
use std::io::Write;
use std::{fmt, io};
use tables::Table;

pub(super) fn task(output: &mut impl Write, table: &Table, number: u32) -> io::Result<()> {
    output.write_all(naming::named(&table.task_names, number as usize * 2))
}

// `-` for none.
pub(super) fn mode(output: &mut impl Write, table: &Table, number: u32) -> io::Result<()> {
    if number >= 8 {
        return output.write_all(b"-");
    }
    output.write_all(naming::named(&table.mode_names, number as usize))
}

pub(super) fn port(output: &mut impl Write, table: &Table, number: u32) -> io::Result<()> {
    let names = Names {
        sensors: table.sensors,
        actuators: table.actuators,
        tasks: table.tasks,
        sensor_names: &table.sensor_names,
        actuator_names: &table.actuator_names,
        task_names: &table.task_names,
        output_names: &table.output_names,
        task_rows: &table.task_rows,
    };
    let mut buffer = [0u8; 80];
    let size = names.port(&mut buffer, 0, number);
    output.write_all(buffer.get(..size).unwrap_or(&buffer))
}

// How many ports a table has: those that have a role.
pub(super) fn ports(table: &Table) -> u32 {
    let many = table.roles.iter().take_while(|role| **role != 0).count();
    many as u32
}

// A word as a value of its type.
#[derive(Clone, Copy)]
pub struct Value {
    pub typ: u32,
    pub word: u32,
}

impl fmt::Display for Value {
    fn fmt<W: fmt::Write>(&self, f: &mut fmt::Formatter<W>) -> fmt::Result {
        if self.typ == 1 {
            write!(f, "{}", self.word != 0)
        } else {
            write!(f, "{}", self.word.cast_signed())
        }
    }
}

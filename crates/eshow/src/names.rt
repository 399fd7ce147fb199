// The names in a table's rows.
use naming::Names;
use std::fmt;
use tables::Table;

// The name in a row of names.
#[derive(Clone, Copy)]
pub(crate) struct Name<'a> {
    names: &'a [u8],
    row: usize,
}

impl fmt::Display for Name<'_> {
    fn fmt<W: fmt::Write>(&self, f: &mut fmt::Formatter<W>) -> fmt::Result {
        spell(f, naming::named(self.names, self.row))
    }
}

// A port by its number.
#[derive(Clone, Copy)]
pub(crate) struct Port<'a> {
    table: &'a Table,
    number: u32,
}

impl<'a> Port<'a> {
    pub(crate) fn of(table: &'a Table, number: u32) -> Port<'a> {
        Port { table, number }
    }
}

impl fmt::Display for Port<'_> {
    // `task.output` has at most 65 bytes.
    fn fmt<W: fmt::Write>(&self, f: &mut fmt::Formatter<W>) -> fmt::Result {
        let table = self.table;
        let names = Names {
            sensors: table.sensors,
            actuators: table.actuators,
            tasks: table.tasks,
            sensor_names: &table.sensor_names,
            actuator_names: &table.actuator_names,
            task_names: &table.task_names,
            output_names: &table.output_names,
            task_rows: &table.task_rows,
        };
        let mut text = [0u8; 65];
        let size = names.port(&mut text, 0, self.number);
        spell(f, &text[..size.min(65)])
    }
}

// The letters of a name. In a table that was read they are ASCII, a byte each.
fn spell<W: fmt::Write>(f: &mut fmt::Formatter<W>, name: &[u8]) -> fmt::Result {
    match std::str::from_utf8(name) {
        Ok(letters) => f.write_str(letters),
        Err(_) => Err(fmt::Error),
    }
}

pub(crate) fn module(table: &Table) -> Name<'_> {
    Name {
        names: &table.name,
        row: 0,
    }
}

pub(crate) fn mode(table: &Table, number: u32) -> Name<'_> {
    Name {
        names: &table.mode_names,
        row: number as usize,
    }
}

pub(crate) fn task(table: &Table, number: u32) -> Name<'_> {
    Name {
        names: &table.task_names,
        row: 2 * number as usize,
    }
}

// The host's function of a task.
pub(crate) fn function(table: &Table, number: u32) -> Name<'_> {
    Name {
        names: &table.task_names,
        row: 2 * number as usize + 1,
    }
}

// The host's function that reads a sensor.
pub(crate) fn getter(table: &Table, sensor: u32) -> Name<'_> {
    Name {
        names: &table.sensor_names,
        row: 2 * sensor as usize + 1,
    }
}

// The host's function that sets an actuator.
pub(crate) fn setter(table: &Table, actuator: u32) -> Name<'_> {
    Name {
        names: &table.actuator_names,
        row: 2 * actuator as usize + 1,
    }
}

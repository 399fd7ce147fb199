// The file of a table, put into a buffer part by part.
// Promises: whatever the arrays of the table hold, the bytes of its file by their cells, as far as the buffer goes, and the place behind them.
// Builds on writing.
#![tactic(auto)]

ghost use Rattle.writing.specs.Wrote.{Wrote};
ghost use Rattle.filing.specs.Whole.{ports_in, rest_in, table_of, Filed};

use tables::Table;
use writing::numbers::Out;
use writing::{Arrays, Counts};

// The version, the module's name, sensors and actuators.
fn put_ports(out: &mut Out<'_>, t: &Arrays<'_>)
    ensures { Wrote out.old (ports_in t.now.name.now t.now.sensor_names.now t.now.actuator_names.now t.now.types.now t.now.starts.now t.now.counts.sensors t.now.counts.actuators) out.new }
{
    out.head(t.name);
    writing::ports::sensors(out, t);
    writing::ports::actuators(out, t);
}

// Drivers, guards, modes and code.
fn put_rest(out: &mut Out<'_>, t: &Arrays<'_>)
    ensures { Wrote out.old (rest_in t.now.driver_rows.now t.now.guard_rows.now t.now.mode_names.now t.now.mode_rows.now t.now.code.now t.now.counts.drivers t.now.counts.guards t.now.counts.modes t.now.counts.instructions) out.new }
{
    writing::drivers::drivers(out, t);
    writing::guards::guards(out, t);
    writing::modes::modes(out, t);
    writing::modes::code(out, t);
}

// The file of the table that stands in these arrays, to the front of a buffer; the place behind it.
pub fn file_of(t: &Arrays<'_>, buffer: &mut [u8]) -> usize
    ensures { Filed buffer.old (table_of t.now) buffer.new result }
{
    let mut out = Out { buffer, at: 4 };
    put_ports(&mut out, t);
    writing::tasks::tasks(&mut out, t);
    put_rest(&mut out, t);
    let end = out.at;
    out.at = 0;
    out.quad(((end - 4) % 4294967296) as u32);
    end
}

// The file of a table, to the front of a buffer; the place behind it.
pub fn file(t: &Table, buffer: &mut [u8]) -> usize
    ensures { Filed buffer.old t.now buffer.new result }
{
    let counts = Counts {
        sensors: t.sensors,
        actuators: t.actuators,
        tasks: t.tasks,
        drivers: t.drivers,
        guards: t.guards,
        modes: t.modes,
        instructions: t.instructions,
    };
    let arrays = Arrays {
        counts,
        name: &t.name,
        sensor_names: &t.sensor_names,
        actuator_names: &t.actuator_names,
        task_names: &t.task_names,
        output_names: &t.output_names,
        mode_names: &t.mode_names,
        types: &t.types,
        starts: &t.starts,
        task_rows: &t.task_rows,
        driver_rows: &t.driver_rows,
        guard_rows: &t.guard_rows,
        mode_rows: &t.mode_rows,
        code: &t.code,
    };
    file_of(&arrays, buffer)
}

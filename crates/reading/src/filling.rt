// The parts of a file, one after the other into the arrays of a table.
ghost use Rattle.std.specs.Prelude.{◌≤◌, IfOk};
ghost use Rattle.codec.specs.Codecs.{Bytes};
ghost use Rattle.codec.specs.Readings.{got};
ghost use Rattle.codec.specs.Sequences.{dep};
ghost use Rattle.file.specs.Names.{name as name_of};
ghost use Rattle.file.specs.Records.{sensors as sensors_of, actuators as actuators_of, tasks as tasks_of};
ghost use Rattle.file.specs.Code.{drivers as drivers_of, guards as guards_of, modes as modes_of, code as code_of};
ghost use Rattle.file.specs.Files.{table as table_of};
ghost use Rattle.layout.specs.Plain.{struct_of, blank as blank_table};
ghost use Rattle.fields.specs.Outcomes.{outcome};
ghost use Rattle.fields.specs.Taking.{Takes};
ghost use Rattle.reading.specs.Stages.{store_ports, store_tasks, store_rest};

use super::blank;
use fields::{Cursor, put_name};
use file::Refused;
use tables::Table;

// The module's name, sensors and actuators.
fn ports(file: &mut Cursor, t: &mut Table) -> Result<(), Refused>
    ensures takes { Takes (dep name_of _ (λ x. dep sensors_of _ (λ x. actuators_of))) store_ports (got t.old file.old.rest.now) (outcome (λ u. t.new) result file.new.rest.now) }
    ensures ports_bound { IfOk result (λ u. (t.new.sensors ≤ 32) × (t.new.actuators ≤ 32)) }
{
    let name = file.name()?;
    put_name(&mut t.name, 0, name);
    t.sensors = declarations::sensors(file, &mut t.sensor_names, &mut t.types)?;
    declarations::mark(&mut t.roles, 0, t.sensors, 1);
    t.actuators = declarations::actuators(
        file,
        t.sensors,
        &mut t.actuator_names,
        &mut t.types,
        &mut t.starts,
    )?;
    declarations::mark(&mut t.roles, t.sensors as usize, t.actuators, 2);
    Ok(())
}

// The tasks, whose ports stand behind those of sensors and actuators.
fn tasks(file: &mut Cursor, t: &mut Table) -> Result<(), Refused>
    requires { (t.old.sensors ≤ 32) × (t.old.actuators ≤ 32) }
    ensures { Takes tasks_of store_tasks (got t.old file.old.rest.now) (outcome (λ u. t.new) result file.new.rest.now) }
{
    let read = declarations::tasks(
        file,
        t.sensors + t.actuators,
        &mut t.task_names,
        &mut t.output_names,
        &mut t.types,
        &mut t.starts,
        &mut t.roles,
        &mut t.task_rows,
    )?;
    t.tasks = read.count;
    Ok(())
}

// The drivers, guards, modes and code.
fn rest(file: &mut Cursor, t: &mut Table) -> Result<(), Refused>
    ensures { Takes (dep drivers_of _ (λ x. dep guards_of _ (λ x. dep modes_of _ (λ x. code_of)))) store_rest (got t.old file.old.rest.now) (outcome (λ u. t.new) result file.new.rest.now) }
{
    t.drivers = records::drivers(file, &mut t.driver_rows)?;
    t.guards = records::guards(file, &mut t.guard_rows)?;
    t.modes = records::modes(file, &mut t.mode_names, &mut t.mode_rows)?;
    t.instructions = records::code(file, &mut t.code)?;
    Ok(())
}

// A table, from the front of the bytes that are left.
pub fn table(file: &mut Cursor) -> Result<Table, Refused>
    requires { Bytes file.old.rest.now }
    ensures { Takes table_of (λ t old. struct_of t) (got blank_table file.old.rest.now) (outcome (λ t. t) result file.new.rest.now) }
{
    let mut table = blank();
    ports(file, &mut table)?;
    tasks(file, &mut table)?;
    rest(file, &mut table)?;
    Ok(table)
}

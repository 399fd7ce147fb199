// The reader of E-code files: the table that some bytes hold, or the number of the refusal.
// Promises: any bytes are answered as the definition of the file says; a table, or the number of the refusal.
// Builds on the readers of the records and on the tests of references.
#![tactic(auto)]

ghost use Rattle.std.specs.Prelude.{◌≡◌};
ghost use Rattle.codec.specs.Codecs.{Bytes};
ghost use Rattle.file.specs.Answers.{read_number};
ghost use Rattle.file.specs.Files.{judged as judged_of, versioned as versioned_of, decode, table as table_of};
ghost use Rattle.layout.specs.Plain.{blank as blank_table};
ghost use Rattle.referring.specs.Rows.{good_in};
ghost use Rattle.reading.specs.Readings.{result_of, reading_of, number_read};

use fields::Cursor;
use file::{ReadAnswer, Refused};
use tables::Table;

mod filling;

// What reading gives: the answer, and beside it the table, or a blank one.
#[derive(Drop)]
pub struct Reading {
    pub answer: ReadAnswer,
    pub table: Table,
}

fn blank() -> Table
    ensures { result ≡ blank_table }
{
    Table {
        sensors: 0,
        actuators: 0,
        tasks: 0,
        drivers: 0,
        guards: 0,
        modes: 0,
        instructions: 0,
        name: [0u8; 33],
        sensor_names: [0u8; 2112],
        actuator_names: [0u8; 2112],
        task_names: [0u8; 2112],
        output_names: [0u8; 4224],
        mode_names: [0u8; 264],
        roles: [0u32; 320],
        types: [0u32; 320],
        starts: [0u32; 320],
        task_rows: [0u32; 128],
        driver_rows: [0u32; 3456],
        guard_rows: [0u32; 1536],
        mode_rows: [0u32; 24],
        code: [0u32; 12288],
    }
}

// Whether a table's numbers refer to what is there.
#[tactic(auto, unfolding(referring::specs::Rows::good_in))]
fn good(t: &Table) -> bool
    ensures { result ≡ good_in t.now }
{
    referring::good_drivers(
        &t.roles,
        &t.types,
        &t.task_rows,
        &t.driver_rows,
        t.tasks,
        t.drivers,
    ) && referring::good_guards(&t.roles, &t.types, &t.guard_rows, t.guards)
        && referring::good_modes(&t.mode_rows, t.modes, t.instructions)
        && referring::good_code(
            &t.code,
            t.instructions,
            t.drivers,
            t.tasks,
            t.guards,
            t.modes,
        )
}

// The table behind the version: 22 and 23 come first, bytes left over are 22, last 24.
fn judged(file: &mut Cursor) -> Result<Table, Refused>
    requires { Bytes file.old.rest.now }
    ensures { result ≡ result_of (judged_of (table_of.get file.old.rest.now)) }
{
    let table = filling::table(file)?;
    if !file.rest.is_empty() {
        return Err(Refused { number: 22 });
    }
    if good(&table) {
        Ok(table)
    } else {
        Err(Refused { number: 24 })
    }
}

// The version, and the table behind it.
fn versioned(file: &mut Cursor) -> Result<Table, Refused>
    requires { Bytes file.old.rest.now }
    ensures { result ≡ result_of (versioned_of file.old.rest.now) }
{
    let Ok(version) = file.byte() else {
        return Err(Refused { number: 20 });
    };
    if version != 1 {
        return Err(Refused { number: 21 });
    }
    judged(file)
}

fn decoded(bytes: &[u8]) -> Result<Table, Refused>
    ensures { result ≡ result_of (decode bytes.now) }
{
    let mut file = Cursor { rest: bytes };
    let Ok(size) = file.quad() else {
        return Err(Refused { number: 20 });
    };
    if size as usize != file.rest.len() {
        return Err(Refused { number: 20 });
    }
    versioned(&mut file)
}

// The table that some bytes hold, or the number of the refusal.
pub fn read(bytes: &[u8]) -> Reading
    ensures answer { result ≡ reading_of (decode bytes.now) }
    ensures number { read_number result.answer ≡ number_read (decode bytes.now) }
{
    match decoded(bytes) {
        Ok(table) => Reading {
            answer: ReadAnswer::Read,
            table,
        },
        Err(refused) => Reading {
            answer: ReadAnswer::Refused(refused.number),
            table: blank(),
        },
    }
}

// Requests to a machine.
use super::answers;
use super::asking::{Call, Values};
use emachine::Machine;
use machine::Reaction;
use std::io;
use std::io::Write;

// start HEXFILE COUNT VALUES: the machine, unless it is refused. A file that does not read leaves the blank table, which is no file's: 30.
pub(super) fn start(
    output: &mut impl Write,
    file: &[u8],
    count: u32,
    readings: Values<'_>,
) -> io::Result<Option<Machine>> {
    let reading = ecode::read(file);
    let started = starting::start(reading.table, count, readings.types, readings.words);
    answers::reaction(output, started.answer)?;
    Ok(match started.answer {
        Reaction::Refused(_) => None,
        _ => Some(started.machine),
    })
}

// A request to the machine that was started.
pub(super) fn call(
    output: &mut impl Write,
    call: Call<'_>,
    machine: &mut Machine,
) -> io::Result<()> {
    match call {
        Call::Tick { count, readings } => {
            answers::reaction(output, machine.tick(count, readings.types, readings.words))
        }
        Call::Next => answers::turn(output, machine.next_task()),
        Call::Finish { task, results } => {
            answers::finishing(output, machine.finish(task, results.types, results.words))
        }
        Call::Look => answers::look(output, machine.look()),
    }
}

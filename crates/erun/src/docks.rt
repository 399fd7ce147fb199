// The machine under a script: a call, what it answers, and what stood before it.
use super::asking::Call;
use super::values::Values;
use super::{changes, messages};
use calls::Standing;
use emachine::Machine;
use file::Refused;
use machine::Reaction;
use std::io;
use std::io::Write;
use tables::Table;

// The machine, whether a start made it, and the readings that were given last.
#[derive(Drop)]
pub struct Dock {
    pub machine: Machine,
    pub made: bool,
    pub kept: Values,
}

// What a call answers.
#[derive(Clone, Copy)]
pub enum Answer {
    Reaction(Reaction),
    Turn(Result<Option<u32>, Refused>),
    Finishing(Result<(), Refused>),
    Seen,
}

impl Answer {
    fn is_refused(self) -> bool {
        match self {
            Answer::Reaction(Reaction::Refused(_))
            | Answer::Turn(Err(_))
            | Answer::Finishing(Err(_)) => true,
            _ => false,
        }
    }
}

// Where a machine stands before its start: mode 8 is none.
const UNSTARTED: Standing = Standing {
    clock: 0,
    remaining: 0,
    mode: 8,
    pc: 0,
    out: 0,
    waiting: 0,
    finished: 0,
    stopped: false,
    fault: 0,
    late: 0,
};

impl Dock {
    // No machine is started on the table; every reading is 0 or false.
    pub(super) fn empty(table: Table) -> Dock {
        let kept = Values::of(&table.types, &[]);
        Dock {
            machine: Machine {
                table,
                standing: UNSTARTED,
                ports: [0; 320],
                aside: [0; 256],
            },
            made: false,
            kept,
        }
    }
}

// The first of a list, as many as are asked for.
fn front(values: &[u32], many: u32) -> &[u32] {
    values.get(..many as usize).unwrap_or(values)
}

// What a call answers; a start is on the machine's own table.
fn answered(machine: &mut Machine, call: Call) -> Answer {
    let sensors = machine.table.sensors;
    match call {
        Call::Start { count, readings } => {
            let started = starting::start(
                machine.table,
                count,
                front(&readings.types, sensors),
                front(&readings.words, sensors),
            );
            *machine = started.machine;
            Answer::Reaction(started.answer)
        }
        Call::Tick { count, readings } => Answer::Reaction(machine.tick(
            count,
            front(&readings.types, sensors),
            front(&readings.words, sensors),
        )),
        Call::Next => Answer::Turn(machine.next_task()),
        Call::Finish {
            task,
            many,
            results,
        } => Answer::Finishing(machine.finish(
            task,
            front(&results.types, many),
            front(&results.words, many),
        )),
        Call::Look => Answer::Seen,
    }
}

// A call and the trace of it: its answer and what it changed; all that stands there for a look.
pub(super) fn obey(output: &mut impl Write, call: Call, dock: &mut Dock) -> io::Result<()> {
    let (before, held) = match call {
        Call::Start { .. } => (UNSTARTED, dock.machine.table.starts),
        _ => (dock.machine.standing, dock.machine.ports),
    };
    let answer = answered(&mut dock.machine, call);
    match call {
        Call::Start { readings, .. } => {
            dock.kept = readings;
            dock.made = !answer.is_refused();
        }
        Call::Tick { readings, .. } => dock.kept = readings,
        Call::Next | Call::Finish { .. } | Call::Look => {}
    }
    let machine = &dock.machine;
    match answer {
        Answer::Seen => changes::all(output, machine.look()),
        _ => {
            messages::answer(output, answer, &machine.table)?;
            if answer.is_refused() {
                Ok(())
            } else {
                changes::since(output, before, &held, machine)
            }
        }
    }
}

// What a line of a script asks for (docs/RUN.md): an error, or a call whose results fill one row of 32 at most.
ghost use Rattle.std.specs.Prelude.{IfOk};
ghost use Rattle.erun.specs.Calls.{FillsRow, AsksRow};

use super::docks::Dock;
use super::values::{Names, Values};
use super::words::{self, Words};
use emachine::Machine;
use std::fmt;

// What is wrong with a line, and the word that is about.
#[derive(Clone, Copy)]
pub struct Wrong<'a> {
    pub cause: Cause,
    pub word: &'a [u8],
}

#[derive(Clone, Copy)]
pub enum Cause {
    Call,
    Number,
    Value,
    Sensor,
    Task,
    Output,
    NotStarted,
    LeftOver,
    Missing,
}

impl fmt::Display for Cause {
    fn fmt<W: fmt::Write>(&self, f: &mut fmt::Formatter<W>) -> fmt::Result {
        f.write_str(match self {
            Cause::Call => "no such call: ",
            Cause::Number => "a number is wrong: ",
            Cause::Value => "a value is wrong (NAME=VALUE expected): ",
            Cause::Sensor => "no sensor is called ",
            Cause::Task => "no task is called ",
            Cause::Output => "no output of the task is called ",
            Cause::NotStarted => "start the machine first: ",
            Cause::LeftOver => "words left over: ",
            Cause::Missing => "a word is missing",
        })
    }
}

// A call of the machine; readings are given for every sensor, results for every output of the task.
#[derive(Clone, Copy)]
pub enum Call {
    Start {
        count: u32,
        readings: Values,
    },
    Tick {
        count: u32,
        readings: Values,
    },
    Next,
    Finish {
        task: u32,
        many: u32,
        results: Values,
    },
    Look,
}

#[derive(Clone, Copy)]
pub enum Line {
    Comment,
    Help,
    Call(Call),
}

// ---- start and tick

// The readings that are kept, and what the line changes of them.
fn readings<'a>(rest: Words<'a>, dock: &Dock) -> Result<Values, Wrong<'a>> {
    let table = &dock.machine.table;
    let sensors = Names {
        rows: &table.sensor_names,
        paired: true,
        first: 0,
        many: table.sensors,
    };
    dock.kept.changed(rest, &sensors, Cause::Sensor)
}

const MISSING: Wrong<'static> = Wrong {
    cause: Cause::Missing,
    word: b"",
};

// start COUNT [SENSOR=VALUE ..]
fn start<'a>(mut rest: Words<'a>, dock: &Dock) -> Result<Call, Wrong<'a>>
    ensures { IfOk result FillsRow }
{
    let word = rest.next().ok_or(MISSING)?;
    let count = words::absolute(word).ok_or(Wrong {
        cause: Cause::Number,
        word,
    })?;
    let readings = readings(rest, dock)?;
    Ok(Call::Start { count, readings })
}

// The count of a tick: `due`, or no word but a value, is the instant that is due.
fn count<'a>(rest: &mut Words<'a>, machine: &Machine) -> Result<u32, Wrong<'a>> {
    let standing = machine.standing;
    let due = standing.clock.wrapping_add(standing.remaining);
    let mut behind = *rest;
    let Some(word) = behind.next() else {
        return Ok(due);
    };
    if word.contains(&b'=') {
        return Ok(due);
    }
    *rest = behind;
    if word == b"due".as_slice() {
        return Ok(due);
    }
    words::time(word, standing.clock).ok_or(Wrong {
        cause: Cause::Number,
        word,
    })
}

// tick [TIME] [SENSOR=VALUE ..]
fn tick<'a>(mut rest: Words<'a>, dock: &Dock) -> Result<Call, Wrong<'a>>
    ensures { IfOk result FillsRow }
{
    let count = count(&mut rest, &dock.machine)?;
    let readings = readings(rest, dock)?;
    Ok(Call::Tick { count, readings })
}

// ---- finish

// How many outputs the tasks before one have.
fn outputs_before(task_rows: &[u32], task: usize) -> u32 {
    let mut sum = 0u32;
    for row in task_rows.chunks_exact(4).take(task) {
        sum = sum.wrapping_add(cells::at32(row, 3));
    }
    sum
}

// finish TASK [OUTPUT=VALUE ..]: an output that is not named has the value that its port shows.
fn finish<'a>(mut rest: Words<'a>, machine: &Machine) -> Result<Call, Wrong<'a>>
    ensures { IfOk result FillsRow }
{
    let table = &machine.table;
    let word = rest.next().ok_or(MISSING)?;
    let tasks = Names {
        rows: &table.task_names,
        paired: true,
        first: 0,
        many: table.tasks,
    };
    let task = tasks.find(word).ok_or(Wrong {
        cause: Cause::Task,
        word,
    })?;
    let port = cells::at32(&table.task_rows, 4 * task as usize + 2) as usize;
    let many = cells::at32(&table.task_rows, 4 * task as usize + 3);
    let outputs = Names {
        rows: &table.output_names,
        paired: false,
        first: outputs_before(&table.task_rows, task as usize) as usize,
        many,
    };
    let shown = Values::of(
        table.types.get(port..).unwrap_or_default(),
        machine.ports.get(port..).unwrap_or_default(),
    );
    let results = shown.changed(rest, &outputs, Cause::Output)?;
    Ok(Call::Finish {
        task,
        many: many.min(32),
        results,
    })
}

// ---- lines

// No words are left.
fn alone(mut rest: Words<'_>) -> Result<(), Wrong<'_>> {
    match rest.next() {
        None => Ok(()),
        Some(word) => Err(Wrong {
            cause: Cause::LeftOver,
            word,
        }),
    }
}

// An empty line is a comment, and one that begins with `#` or `//`.
fn is_comment(word: &[u8]) -> bool {
    word.starts_with(b"#") || word.starts_with(b"//")
}

// A call of the machine that was started.
fn called<'a>(word: &'a [u8], rest: Words<'a>, dock: &Dock) -> Result<Line, Wrong<'a>>
    ensures { IfOk result AsksRow }
{
    if !dock.made {
        return Err(Wrong {
            cause: Cause::NotStarted,
            word,
        });
    }
    Ok(Line::Call(match word {
        b"tick" => tick(rest, dock)?,
        b"finish" => finish(rest, &dock.machine)?,
        b"next" => {
            alone(rest)?;
            Call::Next
        }
        _ => {
            alone(rest)?;
            Call::Look
        }
    }))
}

// What a line asks for.
pub(super) fn asked<'a>(line: &'a [u8], dock: &Dock) -> Result<Line, Wrong<'a>>
    ensures { IfOk result AsksRow }
{
    let mut rest = Words { rest: line };
    let Some(word) = rest.next() else {
        return Ok(Line::Comment);
    };
    if is_comment(word) {
        return Ok(Line::Comment);
    }
    match word {
        b"help" => {
            alone(rest)?;
            Ok(Line::Help)
        }
        b"start" => Ok(Line::Call(start(rest, dock)?)),
        b"tick" | b"next" | b"finish" | b"look" => called(word, rest, dock),
        _ => Err(Wrong {
            cause: Cause::Call,
            word,
        }),
    }
}

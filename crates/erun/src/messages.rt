// The machine's answers, the script's errors and the help in words.
use super::asking::Wrong;
use super::docks::Answer;
use super::names;
use machine::Reaction;
use std::io;
use std::io::Write;
use tables::Table;

// A line as it stands, behind a mark.
pub(super) fn echo(output: &mut impl Write, mark: &str, line: &[u8]) -> io::Result<()> {
    write!(output, "{mark}")?;
    output.write_all(line)?;
    writeln!(output)
}

// ---- answers

fn refused(output: &mut impl Write, number: u8) -> io::Result<()> {
    let cause = match number {
        30 => "table that the reader would never return",
        31 => "the machine is stopped",
        32 => "readings of wrong count or type",
        33 => "instant missed",
        34 => "task not handed out or already finished",
        _ => "results of wrong count or type",
    };
    writeln!(output, "refused {number}: {cause}")
}

fn fault(output: &mut impl Write, number: u8) -> io::Result<()> {
    writeln!(
        output,
        "fault {}",
        match number {
            41 =>
                "41: no return after as many instructions as the code holds, or running past its end",
            42 => "42: return with no future, or a second future",
            _ => "43: releasing a task that is out",
        }
    )
}

fn reaction(output: &mut impl Write, answer: Reaction, table: &Table) -> io::Result<()> {
    match answer {
        Reaction::Obeyed(steps) => writeln!(output, "ok, {steps} instructions"),
        Reaction::Idle => writeln!(output, "idle"),
        Reaction::Refused(number) => refused(output, number),
        Reaction::Late(task) => {
            write!(output, "fault 40: task ")?;
            names::task(output, table, task)?;
            writeln!(output, " is late")
        }
        Reaction::Fault(number) => fault(output, number),
    }
}

// The answer of a call.
pub(super) fn answer(output: &mut impl Write, answer: Answer, table: &Table) -> io::Result<()> {
    match answer {
        Answer::Reaction(answer) => reaction(output, answer, table),
        Answer::Turn(Ok(Some(task))) => {
            write!(output, "task ")?;
            names::task(output, table, task)?;
            writeln!(output)
        }
        Answer::Turn(Ok(None)) => writeln!(output, "no task waits"),
        Answer::Finishing(Ok(())) | Answer::Seen => writeln!(output, "ok"),
        Answer::Turn(Err(refusal)) | Answer::Finishing(Err(refusal)) => {
            refused(output, refusal.number)
        }
    }
}

// ---- errors

pub(super) fn trouble(output: &mut impl Write, line: u64, words: &str) -> io::Result<()> {
    writeln!(output, "error: line {line}: {words}")
}

// An error of the script, and the word that it is about.
pub(super) fn wrong(output: &mut impl Write, line: u64, wrong: Wrong<'_>) -> io::Result<()> {
    write!(output, "error: line {line}: {}", wrong.cause)?;
    output.write_all(wrong.word)?;
    writeln!(output)
}

// The file of the first line does not read.
pub(super) fn unread(output: &mut impl Write, number: u8) -> io::Result<()> {
    writeln!(
        output,
        "error: line 0: the file does not read: refused {number}"
    )
}

// ---- help

pub(super) fn help(output: &mut impl Write) -> io::Result<()> {
    output.write_all(
        b"start COUNT [SENSOR=VALUE ..]   start the machine at a count of microseconds
tick [TIME] [SENSOR=VALUE ..]   TIME: 5ms, 300us, 2s later; a count; due, as without
next                            the next task to run
finish TASK [OUTPUT=VALUE ..]   the task is finished, with its results
look                            the whole machine
help                            these lines; # or // begins a comment
VALUE: a number, true or false. What is not named keeps the value that it has.
",
    )
}

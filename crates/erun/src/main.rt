// The E-machine driven by a script of named calls: the trace of what it answers and what each call changes (docs/RUN.md).
// Promises: it ends when the input does, in the memory that it has from the beginning, whatever the lines say.
// Builds on lines and naming, and on the product's own reader and machine.
#![tactic(auto)]

use docks::Dock;
use file::ReadAnswer;
use lines::input::{Found, Lines};
use lines::numbers;
use std::io;
use std::io::{Read, Write};

mod asking;
mod changes;
mod docks;
mod messages;
mod names;
mod values;
mod words;

// The answer to a line by its number; whether it has an error.
fn serve(output: &mut impl Write, number: u64, line: &[u8], dock: &mut Dock) -> io::Result<bool> {
    match asking::asked(line, dock) {
        Ok(asking::Line::Comment) => messages::echo(output, "", line)?,
        Ok(asking::Line::Help) => {
            messages::echo(output, "> ", line)?;
            messages::help(output)?;
        }
        Ok(asking::Line::Call(call)) => {
            messages::echo(output, "> ", line)?;
            docks::obey(output, call, dock)?;
        }
        Err(wrong) => {
            messages::echo(output, "> ", line)?;
            messages::wrong(output, number, wrong)?;
            return Ok(true);
        }
    }
    Ok(false)
}

// The script, line by line, until the input ends, or its first error where it is to stop there.
fn run(
    input: &mut impl Read,
    output: &mut impl Write,
    lines: &mut Lines<'_>,
    stop: bool,
    dock: &mut Dock,
) -> io::Result<()> {
    for number in 1..u64::MAX {
        let wrong = match lines.next(input) {
            Found::Line(line) => serve(output, number, words::trimmed(line), dock)?,
            Found::Long => {
                messages::trouble(output, number, "the line is too long")?;
                true
            }
            Found::End => return Ok(()),
        };
        output.flush()?;
        if wrong && stop {
            return Ok(());
        }
    }
    Ok(())
}

// What the first line says: the file, and whether the script ends at its first error.
#[derive(Clone, Copy)]
struct Opening<'a> {
    file: &'a [u8],
    stop: bool,
}

// `file HEX [stop]`, a file of at least one byte.
fn first_line<'a>(line: &[u8], bytes: &'a mut [u8]) -> Option<Opening<'a>> {
    let mut rest = line.split(|byte| *byte == b' ');
    if rest.next()? != b"file".as_slice() {
        return None;
    }
    let digits = rest.next()?;
    let size = numbers::bytes(digits, lines::word(digits, 0), bytes)?;
    let stop = match rest.next() {
        None => false,
        Some(b"stop") => true,
        Some(_) => return None,
    };
    if size == 0 || rest.next().is_some() {
        return None;
    }
    Some(Opening {
        file: bytes.get(..size)?,
        stop,
    })
}

// The first line, then the others.
fn begin(
    input: &mut impl Read,
    output: &mut impl Write,
    buffer: &mut [u8],
    bytes: &mut [u8],
) -> io::Result<()> {
    let mut lines = Lines::new(buffer);
    let Found::Line(line) = lines.next(input) else {
        return messages::trouble(output, 0, "file HEX expected");
    };
    let Some(opened) = first_line(words::trimmed(line), bytes) else {
        return messages::trouble(output, 0, "file HEX expected");
    };
    let reading = ecode::read(opened.file);
    match reading.answer {
        ReadAnswer::Read => {
            let mut dock = Dock::empty(reading.table);
            run(input, output, &mut lines, opened.stop, &mut dock)
        }
        ReadAnswer::Refused(number) => messages::unread(output, number),
    }
}

fn main(rt: HostRuntime) -> io::Result<()> {
    let mut buffer = [0u8; 262144];
    let mut bytes = [0u8; 100000];
    begin(&mut rt.stdin(), &mut rt.stdout(), &mut buffer, &mut bytes)
}

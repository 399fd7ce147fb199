// The console: a request a line on standard input, an answer a line on standard output, until the input ends (docs/CONSOLE.md).
// Promises: it ends when the input does, in bounded memory, whatever the lines say.
// Builds on lines, and on the product's own calls.
#![tactic(auto)]

ghost use Rattle.std.specs.Prelude.{◌≡◌, length};

use asking::Request;
use emachine::Machine;
use lines::input::{Found, Lines};
use std::io;
use std::io::{Read, Write};

mod answers;
mod asking;
mod docks;
mod files;

// Room for the longest line, the longest file and the longest answer.
const ROOM: usize = 262144;

pub fn room() -> [u8; ROOM]
    ensures { 262144 ≡ length result }
{
    [0; ROOM]
}

// The answer to a line; a machine, if one is started.
fn reply(output: &mut impl Write, line: &[u8], machine: &mut Option<Machine>) -> io::Result<()> {
    let mut bytes = [0u8; 100000];
    let mut types = [0u32; 33];
    let mut words = [0u32; 33];
    match asking::parsed(line, &mut bytes, &mut types, &mut words) {
        None => writeln!(output, "error"),
        Some(Request::Compile { text, room }) => files::compile(output, text, room),
        Some(Request::Read { file }) => files::read(output, file),
        Some(
            Request::Start {
                file,
                count,
                readings,
            },
        ) => {
            *machine = docks::start(output, file, count, readings)?;
            Ok(())
        }
        Some(Request::Call(call)) => match machine {
            Some(machine) => docks::call(output, call, machine),
            None => writeln!(output, "none"),
        },
    }
}

// A line after the other, until the input ends.
fn run(input: &mut impl Read, output: &mut impl Write, buffer: &mut [u8]) -> io::Result<()> {
    let mut lines = Lines::new(buffer);
    let mut machine = None;
    for _ in 0..u64::MAX {
        match lines.next(input) {
            Found::Line(line) => reply(output, line, &mut machine)?,
            Found::Long => writeln!(output, "error")?,
            Found::End => return Ok(()),
        }
        output.flush()?;
    }
    Ok(())
}

fn main(rt: HostRuntime) -> io::Result<()> {
    let mut buffer = room();
    run(&mut rt.stdin(), &mut rt.stdout(), &mut buffer)
}

// The listing of an E-code file: its bytes on standard input, on standard output a line for each port, task, driver, guard, mode and instruction.
// Promises: it ends, in the memory that it has from the beginning, whatever the bytes are; what does not read is told as `refused N` in words.
// Builds on ecode and naming.
#![tactic(auto)]

ghost use Rattle.std.specs.Prelude.{◌≤◌, length};

use file::ReadAnswer;
use gathered::Gathered;
use std::io;
use std::io::{Read, Write};
use tables::Table;

mod codes;
mod drivers;
mod gathered;
mod guards;
mod modes;
mod names;
mod ports;
mod rows;
mod tasks;
mod values;

// What a refusal of the reader means.
fn refuse(output: &mut impl Write, number: u8) -> io::Result<()> {
    let meaning = match number {
        20 => "length wrong, or under five bytes in all",
        21 => "another version",
        22 => "bytes missing or left over, or a count over the room",
        23 =>
            "bad tag, opcode, type, name, marker, boolean or unused argument, or a period or delay out of range",
        24 =>
            "a reference out of range or of another kind, unknown guard, wrong argument count, types that disagree, or not exactly one start mode",
        _ => return Ok(()),
    };
    writeln!(output, "refused {number}: {meaning}")
}

// The whole listing of a table. The version is 1 in every file that reads.
fn listing(output: &mut impl Write, table: &Table) -> io::Result<()> {
    let module = names::module(table);
    writeln!(output, "MODULE {module} {{\n  version=1")?;
    ports::list(output, table)?;
    tasks::list(output, table)?;
    drivers::list(output, table)?;
    guards::list(output, table)?;
    modes::list(output, table)?;
    codes::list(output, table)?;
    writeln!(output, "}}")
}

// Some bytes as a file: listed, or refused.
fn show(output: &mut impl Write, bytes: &[u8]) -> io::Result<()> {
    let reading = ecode::read(bytes);
    match reading.answer {
        ReadAnswer::Read => listing(output, &reading.table),
        ReadAnswer::Refused(number) => refuse(output, number),
    }
}

// The input, until the buffer is full, the input ends or a read fails; how much of it stands in the buffer.
fn read_full(input: &mut impl Read, buffer: &mut [u8]) -> usize
    ensures { result ≤ length buffer.new }
{
    let mut done = 0;
    while done < buffer.len() {
        match input.read(&mut buffer[done..]) {
            Ok(0) | Err(_) => return done,
            Ok(n) => done += n,
        }
    }
    done
}

fn main(rt: HostRuntime) -> io::Result<()> {
    let mut bytes = [0u8; 100001];
    let size = read_full(&mut rt.stdin(), &mut bytes);
    let mut output = Gathered::on(rt.stdout());
    show(&mut output, &bytes[..size])?;
    output.flush()
}

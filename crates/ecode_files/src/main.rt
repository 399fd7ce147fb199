// Files read and written again: the smallest, the one of bench case 8, one at the limit of every room, and a damaged one for each refusal.
// Promises: what it prints is compared with `stdout`; the answers are those of ecode.
// Builds on ecode.
#![tactic(auto)]

use file::ReadAnswer;
use std::io;
use std::io::Write;
use tables::Table;

mod limits;

const SMALLEST: [u8; 77] = [
    0, 0, 0, 73, 1, 1, 77, 0, 0, 0, 0, 0, 0, 0, 0, 0, 0, 0, 1, 1, 109, 1, 0, 0, 19, 136, 0, 0, 0,
    0, 0, 5, 1, 0, 0, 0, 2, 0, 0, 19, 136, 6, 255, 255, 255, 255, 255, 255, 255, 255, 0, 0, 0, 0,
    1, 255, 255, 255, 255, 0, 0, 0, 0, 2, 255, 255, 255, 255, 5, 0, 0, 0, 0, 255, 255, 255, 255,
];

const BIKES: [u8; 166] = [
    0, 0, 0, 162, 1, 1, 77, 0, 1, 5, 98, 105, 107, 101, 115, 0, 1, 103, 0, 1, 4, 115, 105, 103,
    110, 0, 0, 0, 0, 0, 1, 102, 0, 1, 5, 99, 111, 117, 110, 116, 1, 99, 1, 0, 1, 1, 111, 0, 0, 0,
    0, 10, 0, 3, 5, 0, 0, 3, 0, 3, 0, 1, 4, 0, 0, 1, 0, 0, 0, 0, 0, 1, 1, 109, 1, 0, 0, 19, 136, 0,
    0, 0, 0, 0, 9, 2, 0, 0, 0, 2, 255, 255, 255, 255, 3, 0, 0, 0, 0, 255, 255, 255, 255, 1, 0, 0,
    0, 4, 0, 0, 19, 136, 6, 255, 255, 255, 255, 255, 255, 255, 255, 2, 0, 0, 0, 0, 255, 255, 255,
    255, 0, 0, 0, 0, 1, 255, 255, 255, 255, 2, 0, 0, 0, 1, 255, 255, 255, 255, 0, 0, 0, 0, 2, 255,
    255, 255, 255, 5, 0, 0, 0, 0, 255, 255, 255, 255,
];

fn rewrite(output: &mut impl Write, table: Table, bytes: &[u8]) -> io::Result<()> {
    let mut buffer = [7u8; 71364];
    match ecode::write(&table, &mut buffer) {
        Ok(n) => writeln!(output, "wrote {n}")?,
        Err(refused) => writeln!(output, "refused {}", refused.number)?,
    }
    if buffer.starts_with(bytes) {
        writeln!(output, "the same bytes")
    } else {
        writeln!(output, "other bytes")
    }
}

fn show(output: &mut impl Write, bytes: &[u8]) -> io::Result<()> {
    let reading = ecode::read(bytes);
    match reading.answer {
        ReadAnswer::Read => {
            writeln!(output, "read {}", bytes.len())?;
            rewrite(output, reading.table, bytes)
        }
        ReadAnswer::Refused(n) => writeln!(output, "refused {n}"),
    }
}

fn show_limits(output: &mut impl Write) -> io::Result<()> {
    let mut file = [0u8; 71364];
    let size = limits::fill(&mut file);
    if size <= file.len() {
        show(output, &file[..size])?;
    }
    Ok(())
}

fn show_damaged(output: &mut impl Write) -> io::Result<()> {
    let mut file = SMALLEST;
    show(output, &file[..76])?;
    file[4] = 2;
    show(output, &file)?;
    file[4] = 1;
    file[31] = 6;
    show(output, &file)?;
    file[31] = 5;
    file[76] = 0;
    show(output, &file)?;
    file[76] = 255;
    file[72] = 5;
    show(output, &file)
}

fn main(rt: HostRuntime) -> io::Result<()> {
    let mut output = rt.stdout();
    show(&mut output, &SMALLEST)?;
    show(&mut output, &BIKES)?;
    show_limits(&mut output)?;
    show_damaged(&mut output)
}

// Requests that leave the machine alone: compile and read.
use super::answers;
use file::ReadAnswer;
use std::io;
use std::io::Write;

// compile HEXTEXT ROOM
pub(super) fn compile(output: &mut impl Write, text: &[u8], room: u32) -> io::Result<()> {
    let mut file = super::room();
    compiled(output, text, room, &mut file)
}

// The file of a text, in at most so much of a buffer.
fn compiled(output: &mut impl Write, text: &[u8], room: u32, file: &mut [u8]) -> io::Result<()> {
    let end = file.len().min(room as usize);
    match tdl::compile(text, &mut file[..end]) {
        Ok(size) => answers::file(output, file, size),
        Err(refusal) => writeln!(output, "refused {} {}", refusal.number, refusal.at),
    }
}

// read HEXFILE: the file of the table that was read
pub(super) fn read(output: &mut impl Write, bytes: &[u8]) -> io::Result<()> {
    let mut file = super::room();
    let reading = ecode::read(bytes);
    if let ReadAnswer::Refused(number) = reading.answer {
        return writeln!(output, "refused {number}");
    }
    match ecode::write(&reading.table, &mut file) {
        Ok(size) => answers::file(output, &file, size),
        Err(refused) => writeln!(output, "refused {}", refused.number),
    }
}

// The E-code file: read, sound and write (document 01, 'The file').
// Promises: any bytes are read as the file's definition says; a table is sound if and only if the reader can return it; a sound table is
// written as its file, and what is refused leaves the buffer as it was.
// Builds on reading, filing and comparing, and on encoding for the theorem that ties them.
#![tactic(auto)]

ghost use Rattle.std.specs.Prelude.{◌≡◌, true, length};
ghost use Rattle.file.specs.Files.{decode};
ghost use Rattle.file.specs.Answers.{read_number, writes, written as written_to, write_number};
ghost use Rattle.reading.specs.Readings.{reading_of, number_read};
ghost use Rattle.ecode.specs.Sound.{bytes_of, back_in, sound_in};
ghost use Rattle.ecode.specs.Numbers.{number_written};
ghost use Rattle.ecode.specs.Theorems.{Tells};

use file::{ReadAnswer, Refused};
use reading::Reading;
use tables::Table;

pub mod arrays;

// The table that some bytes hold, or the number of the refusal.
pub fn read(bytes: &[u8]) -> Reading
    ensures answer { result ≡ reading_of (decode bytes.now) }
    ensures number { read_number result.answer ≡ number_read (decode bytes.now) }
{
    reading::read(bytes)
}

fn reads_back(t: &Table, bytes: &[u8]) -> bool
    ensures { result ≡ back_in t.now (decode bytes.now) }
{
    let back = reading::read(bytes);
    let answer = back.answer;
    let ReadAnswer::Read = answer else {
        return false;
    };
    comparing::same_tables(&back.table, t)
}

// Whether a table, written to a scratch buffer with room for the longest file, is read back as the same.
fn sound_by(t: &Table, scratch: &mut [u8]) -> bool
    requires { length scratch.old ≡ 71364 }
    ensures { result ≡ sound_in t.now }
{
    let n = filing::file(t, scratch);
    reads_back(t, &scratch[..n])
}

// Whether the reader can return a table.
pub fn sound(t: &Table) -> bool
    ensures value { result ≡ sound_in t.now }
    ensures tells { Tells t.now result }
{
    sound_by(t, &mut [0; 71364])
}

// A file, to the front of a buffer that has room for it.
pub fn hand(bytes: &[u8], buffer: &mut [u8]) -> Result<usize, Refused>
    ensures { (result ≡ writes true bytes.now buffer.old) × (buffer.new ≡ written_to true bytes.now buffer.old) }
{
    let n = bytes.len();
    if buffer.len() < n {
        return Err(Refused { number: 14 });
    }
    buffer[..n].copy_from_slice(bytes);
    Ok(n)
}

// What is read back as the same table goes to the buffer, if there is room.
fn handed(t: &Table, bytes: &[u8], buffer: &mut [u8]) -> Result<usize, Refused>
    ensures { (result ≡ writes (back_in t.now (decode bytes.now)) bytes.now buffer.old) × (buffer.new ≡ written_to (back_in t.now (decode bytes.now)) bytes.now buffer.old) }
{
    if reads_back(t, bytes) {
        hand(bytes, buffer)
    } else {
        Err(Refused { number: 30 })
    }
}

// The file of a table, put together in a scratch buffer with room for the longest, and from there to the front of the buffer.
fn write_by(t: &Table, scratch: &mut [u8], buffer: &mut [u8]) -> Result<usize, Refused>
    requires { length scratch.old ≡ 71364 }
    ensures { (result ≡ writes (sound_in t.now) (bytes_of t.now) buffer.old) × (buffer.new ≡ written_to (sound_in t.now) (bytes_of t.now) buffer.old) }
{
    let n = filing::file(t, scratch);
    handed(t, &scratch[..n], buffer)
}

// The file of a table, to the front of a buffer.
pub fn write(t: &Table, buffer: &mut [u8]) -> Result<usize, Refused>
    ensures answer { (result ≡ writes (sound_in t.now) (bytes_of t.now) buffer.old) × (buffer.new ≡ written_to (sound_in t.now) (bytes_of t.now) buffer.old) }
    ensures number { write_number result ≡ number_written (sound_in t.now) (bytes_of t.now) buffer.old }
{
    write_by(t, &mut [0; 71364], buffer)
}

// The file of a table that stands in lent arrays and is known to be sound: it is not read back.
ghost use Rattle.std.specs.Prelude.{◌≡◌, true};
ghost use Rattle.file.specs.Answers.{writes, written};
ghost use Rattle.filing.specs.Whole.{table_of};
ghost use Rattle.ecode.specs.Sound.{bytes_of};

use file::Refused;
use writing::Arrays;

// The file, put together in a buffer aside with room for the longest, and from there to the front of the buffer.
fn write_aside(t: &Arrays<'_>, buffer: &mut [u8]) -> Result<usize, Refused>
    ensures { (result ≡ writes true (bytes_of (table_of t.now)) buffer.old) × (buffer.new ≡ written true (bytes_of (table_of t.now)) buffer.old) }
{
    let mut scratch = [0; 71364];
    let n = filing::file_of(t, &mut scratch);
    super::hand(&scratch[..n], buffer)
}

// The file, to the front of a buffer; where there is room for the longest, put together in its place.
pub fn write(t: &Arrays<'_>, buffer: &mut [u8]) -> Result<usize, Refused>
    ensures { (result ≡ writes true (bytes_of (table_of t.now)) buffer.old) × (buffer.new ≡ written true (bytes_of (table_of t.now)) buffer.old) }
{
    if buffer.len() < 71364 {
        write_aside(t, buffer)
    } else {
        Ok(filing::file_of(t, &mut buffer[..71364]))
    }
}

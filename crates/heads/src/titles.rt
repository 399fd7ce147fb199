// Names in rows of 33 cells: a length and up to 32 bytes.
ghost use Rattle.std.specs.Prelude.{◌≡◌};
ghost use Rattle.refusals.specs.Names.{letters as letters_of};
ghost use Rattle.sheets.specs.Sheets.{name_stored};

use super::stores::store;
use text::Name;

// The bytes of a name, as far as the text goes.
pub fn letters(s: &[u8], name: Name) -> &[u8]
    ensures { result.now ≡ letters_of s.now name }
{
    let end = name.end.min(s.len());
    if name.start < end {
        &s[name.start..end]
    } else {
        &s[..0]
    }
}

// A name of at most 32 bytes, as this number.
pub fn title(s: &[u8], name: Name, number: u32, names: &mut [u8])
    ensures { names.new ≡ name_stored s.now name number names.old }
{
    let word = letters(s, name);
    if word.len() <= 32 {
        let place = number as usize * 33;
        cells::put8(names, place, word.len() as u8);
        store(names, place + 1, word);
    }
}

// Names: read, judged, and put into rows of cells.
ghost use Rattle.std.specs.Prelude.{◌≡◌, ◌≤◌, ◌<◌, length, IfOk};
ghost use Rattle.codec.specs.Numbers.{byte as one_byte};
ghost use Rattle.codec.specs.Views.{check};
ghost use Rattle.codec.specs.Lists.{many_get};
ghost use Rattle.codec.specs.Readings.{and_then, got};
ghost use Rattle.model.specs.Bytes.{place_in};
ghost use Rattle.model.specs.Values.{function_names};
ghost use Rattle.text.specs.Words.{within as is_within};
ghost use Rattle.file.specs.Names.{good_name, name as name_of};
ghost use Rattle.layout.specs.Rows.{name_cells};
ghost use Rattle.layout.specs.Filling.{stored};
ghost use Rattle.fields.specs.Outcomes.{outcome, Reads};

use super::{Cursor, checked};
use file::Refused;
use text::Token;

impl<'a> Cursor<'a> {
    fn size(&mut self) -> Result<u8, Refused>
        ensures reads { Reads (check one_byte 23 (is_within 1 32)) self.old.rest.now result self.new.rest.now }
        ensures value_bound { IfOk result (λ v. v ≤ 32) }
    {
        let size = self.byte()?;
        checked(size, is_size(size), 23)
    }

    #[tactic(auto, using(crate::specs::NameLaws::take_laws))]
    fn take(&mut self, many: usize) -> Result<&'a [u8], Refused>
        ensures reads { many_get one_byte many self.old.rest.now ≡ outcome (λ w. w.now) result self.new.rest.now }
        ensures many { IfOk result (λ w. length w.now ≡ many) }
    {
        if self.rest.len() < many {
            return Err(Refused { number: 22 });
        }
        let (front, rest) = self.rest.split_at(many);
        self.rest = rest;
        Ok(front)
    }

    pub fn name(&mut self) -> Result<&'a [u8], Refused>
        ensures reads { name_of.get self.old.rest.now ≡ outcome (λ w. w.now) result self.new.rest.now }
        ensures short { IfOk result (λ w. length w.now ≤ 32) }
    {
        let size = self.size()?;
        let word = self.take(size as usize)?;
        checked(word, good_name(word), 23)
    }

    // A guard's function, by its number.
    pub fn function(&mut self) -> Result<u32, Refused>
        ensures { and_then (name_of.get self.old.rest.now) (λ word rest. got (place_in function_names 0 word) rest) ≡ outcome (λ v. v) result self.new.rest.now }
    {
        let word = self.name()?;
        Ok(function_number(word))
    }
}

fn is_size(size: u8) -> bool
    ensures { result ≡ is_within 1 32 size }
{
    (1..=32).contains(&size)
}

// Whether some bytes are a name: what the scanner takes for one, from the first byte to the last.
fn good_name(word: &[u8]) -> bool
    ensures { result ≡ good_name word.now }
{
    let lexed = scan::token(word, 0);
    if lexed.token != Token::Name || lexed.start != 0 {
        return false;
    }
    lexed.end == word.len()
}

// The number of the guard's function of this name; 4 where there is none.
fn function_number(word: &[u8]) -> u32
    ensures { result ≡ place_in function_names 0 word.now }
{
    if word == b"isTrue".as_slice() {
        0
    } else if word == b"isFalse".as_slice() {
        1
    } else if word == b"less".as_slice() {
        2
    } else if word == b"equal".as_slice() {
        3
    } else {
        4
    }
}

// Letters over as many cells, one by one: they are few, and a call of the library costs more.
fn copy(cells: &mut [u8], letters: &[u8])
    requires { length cells.old ≡ length letters.now }
    ensures { cells.new ≡ letters.now }
{
    for k in 0..letters.len() {
        cells[k] = letters[k];
    }
}

// A name, to the row of cells that begins at a place; one of more than 32 bytes is no name and goes nowhere.
pub fn put_name(names: &mut [u8], place: usize, word: &[u8])
    ensures row { length word.now ≤ 32 → names.new ≡ stored names.old place (name_cells word.now) }
    ensures room { 32 < length word.now → names.new ≡ names.old }
{
    if 32 < word.len() {
        return;
    }
    if place < names.len() {
        let from = place + 1;
        let end = names.len().min(from + word.len());
        names[place] = word.len() as u8;
        copy(&mut names[from..end], &word[..end - from]);
    }
}

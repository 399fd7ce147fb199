// Values by name: the types and words of one call, as many as a task or the sensors can have.
use super::asking::{Cause, Wrong};
use super::words::{self, Words};

#[derive(Clone, Copy)]
pub struct Values {
    pub types: [u32; 32],
    pub words: [u32; 32],
}

impl Values {
    // The types and words from a place on, of as many as there are.
    pub(super) fn of(types: &[u32], words: &[u32]) -> Values {
        let mut values = Values {
            types: [0; 32],
            words: [0; 32],
        };
        for (to, from) in values.types.iter_mut().zip(types) {
            *to = *from;
        }
        for (to, from) in values.words.iter_mut().zip(words) {
            *to = *from;
        }
        values
    }

    // What the NAME=VALUE words at the end of a line change.
    pub(super) fn changed<'a>(
        mut self,
        rest: Words<'a>,
        names: &Names<'_>,
        unknown: Cause,
    ) -> Result<Values, Wrong<'a>> {
        for word in rest.rest.split(|byte| words::is_blank(*byte)) {
            if !word.is_empty() {
                self.set(word, names, unknown)?;
            }
        }
        Ok(self)
    }

    // One NAME=VALUE.
    fn set<'a>(
        &mut self,
        word: &'a [u8],
        names: &Names<'_>,
        unknown: Cause,
    ) -> Result<(), Wrong<'a>> {
        let wrong = Wrong {
            cause: Cause::Value,
            word,
        };
        let sign = word.iter().position(|byte| *byte == b'=').ok_or(wrong)?;
        let name = &word[..sign];
        let place = names.find(name).ok_or(Wrong {
            cause: unknown,
            word: name,
        })?;
        let value = words::spelled(&word[sign + 1..]).ok_or(wrong)?;
        cells::put32(&mut self.types, place as usize, value.typ);
        cells::put32(&mut self.words, place as usize, value.word);
        Ok(())
    }
}

// Names in rows of a table, one after the other: a row holds a length and 32 bytes; sensors and tasks have two, of which the first is the name.
#[derive(Clone, Copy)]
pub struct Names<'a> {
    pub rows: &'a [u8],
    pub paired: bool,
    pub first: usize,
    pub many: u32,
}

impl<'a> Names<'a> {
    // The number of a name among them.
    pub(super) fn find(&self, name: &[u8]) -> Option<u32> {
        let width = if self.paired { 66 } else { 33 };
        let place = self
            .rows
            .chunks_exact(width)
            .skip(self.first)
            .take(self.many as usize)
            .position(|row| is_called(row, name))?;
        u32::try_from(place).ok()
    }
}

fn is_called(row: &[u8], name: &[u8]) -> bool {
    match row {
        [size, bytes @ ..] => bytes.get(..usize::from(*size)) == Some(name),
        _ => false,
    }
}

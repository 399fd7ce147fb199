// What a request line asks for.
use lines::{numbers, values};

// Types and words of values, one behind the other.
#[derive(Clone, Copy)]
pub struct Values<'a> {
    pub types: &'a [u32],
    pub words: &'a [u32],
}

// A request to a machine that was started.
#[derive(Clone, Copy)]
pub enum Call<'a> {
    Tick { count: u32, readings: Values<'a> },
    Next,
    Finish { task: u32, results: Values<'a> },
    Look,
}

#[derive(Clone, Copy)]
pub enum Request<'a> {
    Compile {
        text: &'a [u8],
        room: u32,
    },
    Read {
        file: &'a [u8],
    },
    Start {
        file: &'a [u8],
        count: u32,
        readings: Values<'a>,
    },
    Call(Call<'a>),
}

// The bytes that a word says.
fn said<'a>(word: &[u8], room: &'a mut [u8]) -> Option<&'a [u8]> {
    let size = numbers::bytes(word, lines::word(word, 0), room)?;
    room.get(..size)
}

fn number(word: &[u8]) -> Option<u32> {
    numbers::small(word, lines::word(word, 0))
}

// The values that a word says.
fn given<'a>(word: &[u8], types: &'a mut [u32], words: &'a mut [u32]) -> Option<Values<'a>> {
    let many = values::values(word, lines::word(word, 0), types, words)?;
    Some(Values {
        types: types.get(..many)?,
        words: words.get(..many)?,
    })
}

// The request of a line, whose bytes and values are put into these buffers; none where a word is missing, left over or malformed.
pub(super) fn parsed<'a>(
    line: &[u8],
    bytes: &'a mut [u8],
    types: &'a mut [u32],
    words: &'a mut [u32],
) -> Option<Request<'a>> {
    let mut rest = line.split(|byte| *byte == b' ');
    let request = match rest.next()? {
        b"compile" => Request::Compile {
            text: said(rest.next()?, bytes)?,
            room: number(rest.next()?)?,
        },
        b"read" => Request::Read {
            file: said(rest.next()?, bytes)?,
        },
        b"start" => Request::Start {
            file: said(rest.next()?, bytes)?,
            count: number(rest.next()?)?,
            readings: given(rest.next()?, types, words)?,
        },
        b"tick" => Request::Call(Call::Tick {
            count: number(rest.next()?)?,
            readings: given(rest.next()?, types, words)?,
        }),
        b"next" => Request::Call(Call::Next),
        b"finish" => Request::Call(Call::Finish {
            task: number(rest.next()?)?,
            results: given(rest.next()?, types, words)?,
        }),
        b"look" => Request::Call(Call::Look),
        _ => return None,
    };
    if rest.next().is_some() {
        return None;
    }
    Some(request)
}

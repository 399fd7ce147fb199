// The words of a line, parted by blanks and TABs, and what they say: values and times.
use lines::numbers;

// A line without the CR that may stand at its end.
pub(super) fn trimmed(line: &[u8]) -> &[u8] {
    match line {
        [trimmed @ .., b'\r'] => trimmed,
        _ => line,
    }
}

pub(super) fn is_blank(byte: u8) -> bool {
    byte == b' ' || byte == b'\t'
}

// The words that are left of a line.
#[derive(Clone, Copy)]
pub struct Words<'a> {
    pub rest: &'a [u8],
}

impl<'a> Words<'a> {
    pub(super) fn next(&mut self) -> Option<&'a [u8]> {
        let rest = self.rest;
        let begin = rest.iter().position(|byte| !is_blank(*byte))?;
        let from = &rest[begin..];
        let size = from
            .iter()
            .position(|byte| is_blank(*byte))
            .unwrap_or(from.len());
        let (word, behind) = from.split_at(size);
        self.rest = behind;
        Some(word)
    }
}

// ---- values

// A type, 0 int or 1 boolean, and a word.
#[derive(Clone, Copy)]
pub struct Value {
    pub typ: u32,
    pub word: u32,
}

fn decimal(word: &[u8]) -> Option<u64> {
    numbers::decimal(word, 0, word.len())
}

// An int of 32 bits, as a word in two's complement.
fn int(word: &[u8]) -> Option<u32> {
    match word {
        [b'-', digits @ ..] => match decimal(digits)? {
            0 => Some(0),
            size if size <= 2147483648 => Some((4294967296 - size) as u32),
            _ => None,
        },
        _ => match decimal(word)? {
            number if number < 2147483648 => Some(number as u32),
            _ => None,
        },
    }
}

// `true`, `false`, or an int of 32 bits.
pub(super) fn spelled(word: &[u8]) -> Option<Value> {
    match word {
        b"true" => Some(Value { typ: 1, word: 1 }),
        b"false" => Some(Value { typ: 1, word: 0 }),
        _ => Some(Value {
            typ: 0,
            word: int(word)?,
        }),
    }
}

// ---- times

// A plain number of 32 bits.
pub(super) fn absolute(word: &[u8]) -> Option<u32> {
    u32::try_from(decimal(word)?).ok()
}

// A count, or `5ms`, `300us`, `2s`: so much later than the clock's count.
pub(super) fn time(word: &[u8], clock: u32) -> Option<u32> {
    let (digits, micros) = match word {
        [digits @ .., b'm', b's'] => (digits, 1000),
        [digits @ .., b'u', b's'] => (digits, 1),
        [digits @ .., b's'] => (digits, 1000000),
        _ => return absolute(word),
    };
    let gone = u64::from(absolute(digits)?) * micros;
    Some(clock.wrapping_add(u32::try_from(gone).ok()?))
}

// Values in a line: `b0`, `b1`, `i` and an int, joined by commas; `-` for none.
ghost use Rattle.std.specs.Prelude.{◌≡◌};
ghost use Rattle.std.proofs.Math.Seq.{slice};
ghost use Rattle.lines.specs.Values.{boolean_in, positive_of, negative_of, int_in, value_in, pieces, all_values, Lists};
ghost use Rattle.lines.specs.ValuesLaws.{Filled};

use super::{Part, numbers};

// A type and a word; the type 2, which no port has, for an int beyond 32 bits.
#[derive(Clone, Copy)]
struct Value {
    typ: u32,
    word: u32,
}

impl Value {
    const BEYOND: Value = Value { typ: 2, word: 0 };

    fn int(word: u32) -> Value
        ensures { result ≡ record { typ = 0; word = word } }
    {
        Value { typ: 0, word }
    }

    fn boolean(word: u32) -> Value
        ensures { result ≡ record { typ = 1; word = word } }
    {
        Value { typ: 1, word }
    }
}

// An int of such a size.
fn positive(size: u64) -> Value
    ensures { result ≡ positive_of size }
{
    if size < 2147483648 {
        Value::int(size as u32)
    } else {
        Value::BEYOND
    }
}

// A negative one, in two's complement.
fn negative(size: u64) -> Value
    ensures { result ≡ negative_of size }
{
    match size {
        0 => Value::int(0),
        1..=2147483648 => Value::int((4294967296 - size) as u32),
        _ => Value::BEYOND,
    }
}

fn int(word: &[u8]) -> Option<Value>
    ensures { result ≡ int_in word.now }
{
    if cells::at8(word, 1) == b'-' {
        Some(negative(numbers::decimal(word, 2, word.len())?))
    } else {
        Some(positive(numbers::decimal(word, 1, word.len())?))
    }
}

fn boolean(word: &[u8]) -> Option<Value>
    ensures { result ≡ boolean_in word.now }
{
    if word == b"b0".as_slice() {
        Some(Value::boolean(0))
    } else if word == b"b1".as_slice() {
        Some(Value::boolean(1))
    } else {
        None
    }
}

fn one(word: &[u8]) -> Option<Value>
    ensures { result ≡ value_in word.now }
{
    if cells::at8(word, 0) == b'i' {
        int(word)
    } else {
        boolean(word)
    }
}

// Whether all that stands between the commas is values. A chain over `split` was tried: the search for its proof ends at a limit.
fn all_good(word: &[u8]) -> bool
    ensures { result ≡ all_values (pieces word.now) }
{
    let mut at = 0;
    while at <= word.len() {
        let end = super::find(word, at, b',');
        if one(super::cut(word, at, end)).is_none() {
            return false;
        }
        at = end + 1;
    }
    true
}

// The types and words of what stands between the commas, and how many there are.
fn fill(word: &[u8], types: &mut [u32], words: &mut [u32]) -> usize
    ensures { Filled word.now types.old words.old types.new words.new result }
{
    let mut count = 0;
    let mut at = 0;
    while at <= word.len() {
        let end = super::find(word, at, b',');
        let value = one(super::cut(word, at, end)).unwrap_or(Value::BEYOND);
        cells::put32(types, count, value.typ);
        cells::put32(words, count, value.word);
        count += 1;
        at = end + 1;
    }
    count
}

// The values that a word says: types and words, one behind the other, as many as there is room for; how many are kept.
pub fn values(line: &[u8], part: Part, types: &mut [u32], words: &mut [u32]) -> Option<usize>
    ensures { Lists (slice part.from part.to line.now) types.old words.old types.new words.new result }
{
    let word = super::cut(line, part.from, part.to);
    if word == b"-".as_slice() {
        return Some(0);
    }
    if !all_good(word) {
        return None;
    }
    let count = fill(word, types, words);
    Some(count.min(types.len()).min(words.len()))
}

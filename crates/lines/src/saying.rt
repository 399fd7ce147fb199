// The words of an answer, put one behind the other into a buffer; what is behind its end is lost.
// Buffer and place stay two parameters: that no second answer fits is proved of these (settled, `saying-byte-settled` and the five behind it).
ghost use Rattle.std.specs.Prelude.{◌≡◌, [], ◌∷◌, ◌-◌};
ghost use Rattle.lines.specs.Buffers.{Said};
ghost use Rattle.lines.specs.Sayings.{decimal_of, glyph_of, hex_of, pairs_of, int_of, value_of, values_behind, values_of};
ghost use Rattle.lines.specs.SayingsLaws.{DigitsOf};

// A byte, and the place behind it.
pub fn byte(out: &mut [u8], at: usize, byte: u8) -> usize
    ensures { Said out.old at (byte ∷ []) out.new result }
{
    if at < out.len() {
        out[at] = byte;
        at + 1
    } else {
        at
    }
}

// A word's bytes.
pub fn text(out: &mut [u8], at: usize, word: &[u8]) -> usize
    ensures { Said out.old at word.now out.new result }
{
    let mut next = at;
    for &letter in word {
        next = byte(out, next, letter);
    }
    next
}

// A number's digits: those from a place of twenty on.
#[derive(Clone, Copy)]
struct Digits {
    all: [u8; 20],
    from: usize,
}

fn counted(number: u64) -> Digits
    ensures { DigitsOf number result.all result.from }
{
    let mut all = [b'0'; 20];
    let mut left = number;
    let mut from = 20;
    while left > 9 {
        from -= 1;
        all[from] = b'0' + (left % 10) as u8;
        left /= 10;
    }
    from -= 1;
    all[from] = b'0' + left as u8;
    Digits { all, from }
}

// A number, without leading zeros.
pub fn decimal(out: &mut [u8], at: usize, number: u64) -> usize
    ensures { Said out.old at (decimal_of number) out.new result }
{
    let Digits { all, from } = counted(number);
    text(out, at, &all[from..])
}

// The last hexadecimal digit of a number.
fn glyph(number: u8) -> u8
    ensures { result ≡ glyph_of number }
{
    match number % 16 {
        d @ 0..=9 => b'0' + d,
        d => b'a' + (d - 10),
    }
}

// A byte by two digits.
fn pair(out: &mut [u8], at: usize, number: u8) -> usize
    ensures { Said out.old at (pairs_of (number ∷ [])) out.new result }
{
    let high = byte(out, at, glyph(number / 16));
    byte(out, high, glyph(number))
}

fn pairs(out: &mut [u8], at: usize, bytes: &[u8]) -> usize
    ensures { Said out.old at (pairs_of bytes.now) out.new result }
{
    let mut next = at;
    for &number in bytes {
        next = pair(out, next, number);
    }
    next
}

// Bytes in hexadecimal; `-` for none.
pub fn hex(out: &mut [u8], at: usize, bytes: &[u8]) -> usize
    ensures { Said out.old at (hex_of bytes.now) out.new result }
{
    if bytes.is_empty() {
        byte(out, at, b'-')
    } else {
        pairs(out, at, bytes)
    }
}

// An int of a word in two's complement.
fn int(out: &mut [u8], at: usize, word: u32) -> usize
    ensures { Said out.old at (int_of word) out.new result }
{
    let number = word as u64;
    if number < 2147483648 {
        decimal(out, at, number)
    } else {
        let minus = byte(out, at, b'-');
        decimal(out, minus, 4294967296 - number)
    }
}

// A word as a value of its type.
pub fn value(out: &mut [u8], at: usize, typ: u32, word: u32) -> usize
    ensures { Said out.old at (value_of typ word) out.new result }
{
    if typ == 1 {
        let front = byte(out, at, b'b');
        decimal(out, front, word as u64)
    } else {
        let front = byte(out, at, b'i');
        int(out, front, word)
    }
}

// The values from the second on, a comma before each.
fn others<'a>(out: &mut [u8], at: usize, types: &'a [u32], words: &'a [u32], many: usize) -> usize
    ensures { Said out.old at (values_behind types.now words.now 1 (many - 1)) out.new result }
{
    let mut next = at;
    for k in 1..many {
        let front = byte(out, next, b',');
        next = value(out, front, cells::at32(types, k), cells::at32(words, k));
    }
    next
}

// Values joined by commas; `-` for none.
pub fn values<'a>(
    out: &mut [u8],
    at: usize,
    types: &'a [u32],
    words: &'a [u32],
    many: usize,
) -> usize
    ensures { Said out.old at (values_of types.now words.now many) out.new result }
{
    if many == 0 {
        byte(out, at, b'-')
    } else {
        let front = value(out, at, cells::at32(types, 0), cells::at32(words, 0));
        others(out, front, types, words, many)
    }
}

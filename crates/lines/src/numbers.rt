// Numbers and bytes in a line.
ghost use Rattle.std.specs.Prelude.{◌≡◌, ◌≤◌, ◌/◌, length};
ghost use Rattle.std.proofs.Math.Seq.{slice};
ghost use Rattle.lines.specs.Buffers.{written};
ghost use Rattle.lines.specs.Numbers.{digit_in, digits, number_of, small_of, hex_worth, bytes_of, Unspells};

use super::Part;

// Whether a byte is a decimal, or a hexadecimal, digit.
fn is_digit(byte: u8, hex: bool) -> bool
    ensures { result ≡ digit_in hex byte }
{
    match byte {
        b'0'..=b'9' => true,
        b'a'..=b'f' => hex,
        _ => false,
    }
}

// Whether a word is digits.
fn all_digits(word: &[u8], hex: bool) -> bool
    ensures { result ≡ digits hex word.now }
{
    for &byte in word {
        if !is_digit(byte, hex) {
            return false;
        }
    }
    !word.is_empty()
}

// The digits from a place to another; leading zeros as many as one likes.
pub fn decimal(line: &[u8], from: usize, to: usize) -> Option<u64>
    ensures { result ≡ number_of (slice from to line.now) }
{
    if all_digits(super::cut(line, from, to), false) {
        Some(scan::value(line, from, to))
    } else {
        None
    }
}

// A number of at most 32 bits.
pub fn small(line: &[u8], part: Part) -> Option<u32>
    ensures { result ≡ small_of (slice part.from part.to line.now) }
{
    u32::try_from(decimal(line, part.from, part.to)?).ok()
}

// The value of a hexadecimal digit.
fn worth(byte: u8) -> u8
    ensures { (result ≡ hex_worth byte) × (result ≤ 15) }
{
    match byte {
        b'0'..=b'9' => byte - b'0',
        b'a'..=b'f' => byte - b'a' + 10,
        _ => 0,
    }
}

// Pairs of digits, each a byte.
fn fill(word: &[u8], room: &mut [u8])
    requires { length word.now / 2 ≤ length room.old }
    ensures { room.new ≡ written room.old 0 (bytes_of word.now) }
{
    for k in 0..word.len() / 2 {
        room[k] = worth(word[2 * k]) * 16 + worth(word[2 * k + 1]);
    }
}

// The bytes that a word says: `-` for none, else an even number of digits, as many as there is room for; how many they are.
pub fn bytes(line: &[u8], part: Part, room: &mut [u8]) -> Option<usize>
    ensures { Unspells (slice part.from part.to line.now) room.old room.new result }
{
    let word = super::cut(line, part.from, part.to);
    if word == b"-".as_slice() {
        return Some(0);
    }
    let size = word.len() / 2;
    if all_digits(word, true) && word.len() % 2 == 0 && size <= room.len() {
        fill(word, room);
        Some(size)
    } else {
        None
    }
}

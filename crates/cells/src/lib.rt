// Cells of lists, read and written at any number: past the end stands 0, and what is put there is lost.
// Promises: every function is total and its answer is given by one definition; words and 32-bit integers are each other's two's complement.
// Builds on the clock of model.
#![tactic(auto)]

ghost use Rattle.std.specs.Prelude.{◌≡◌, ◌<◌, int_lt, slice_index, slice_set};
ghost use Rattle.std.specs.Int.{w32};
ghost use Rattle.std.proofs.Common.{of_z, to_z};
ghost use Rattle.model.specs.Clock.{elapsed as elapsed_of, judged};
ghost use Rattle.cells.specs.Instants.{instant_of};

pub fn wide8(number: u8) -> usize
    ensures { (result ≡ number) × (result < 256) }
{
    number as usize
}

pub fn wide16(number: u16) -> usize
    ensures { (result ≡ number) × (result < 65536) }
{
    number as usize
}

pub fn wide32(number: u32) -> usize
    ensures { (result ≡ number) × (result < 4294967296) }
{
    number as usize
}

pub fn at8(cells: &[u8], i: usize) -> u8
    ensures { result ≡ slice_index cells.now i }
{
    if i < cells.len() { cells[i] } else { 0 }
}

pub fn at32(cells: &[u32], i: usize) -> u32
    ensures { result ≡ slice_index cells.now i }
{
    if i < cells.len() { cells[i] } else { 0 }
}

pub fn put8(cells: &mut [u8], i: usize, number: u8)
    ensures { cells.new ≡ slice_set cells.old i number }
{
    if i < cells.len() {
        cells[i] = number;
    }
}

pub fn put32(cells: &mut [u32], i: usize, number: u32)
    ensures { cells.new ≡ slice_set cells.old i number }
{
    if i < cells.len() {
        cells[i] = number;
    }
}

// A cell copied to another.
pub fn copy32(cells: &mut [u32], from: usize, to: usize)
    ensures { cells.new ≡ slice_set cells.old to (slice_index cells.old from) }
{
    let number = at32(cells, from);
    put32(cells, to, number);
}

// The word of an integer, and the integer of a word, in two's complement.
pub fn word_of(number: i32) -> u32
    ensures { result ≡ of_z w32 number }
{
    if number < 0 {
        4294967295 - (-1 - number) as u32
    } else {
        number as u32
    }
}

pub fn int_of(word: u32) -> i32
    ensures { result ≡ to_z w32 word }
{
    if word < 2147483648 {
        word as i32
    } else {
        -1 - (4294967295 - word) as i32
    }
}

fn below(left: i32, right: i32) -> bool
    ensures { result ≡ int_lt left right }
{
    left < right
}

// Whether a word is less than another, both read as integers.
pub fn less(left: u32, right: u32) -> bool
    ensures { result ≡ int_lt (to_z w32 left) (to_z w32 right) }
{
    below(int_of(left), int_of(right))
}

// The time between two counts of a clock that runs over.
pub fn elapsed(from: u32, to: u32) -> u32
    ensures { result ≡ elapsed_of from to }
{
    std::num::wrapping_sub_u32(to, from)
}

// What a count means: early, with what then remains; due; missed.
#[derive(Clone, Copy)]
pub enum Instant {
    Early(u32),
    Due,
    Missed,
}

pub fn judge(clock: u32, remaining: u32, count: u32) -> Instant
    ensures { result ≡ instant_of (judged (elapsed_of clock count) remaining) }
{
    let gone = elapsed(clock, count);
    if gone < remaining {
        return Instant::Early(remaining - gone);
    }
    if gone == remaining {
        Instant::Due
    } else {
        Instant::Missed
    }
}

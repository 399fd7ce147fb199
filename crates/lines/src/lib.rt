// The lines of an input, and the words of a request line and of its answer: bytes in hexadecimal, numbers, values (docs/CONSOLE.md).
// Promises: each answer, and what each lent buffer then holds, is given by one definition, whatever the line says; the lines of an input, by the bytes that are read.
// Builds on scan and cells.
#![tactic(auto)]

ghost use Rattle.std.specs.Prelude.{◌≡◌, ◌==◌, length, eqb, position};
ghost use Rattle.std.proofs.Math.Seq.{slice};
ghost use Rattle.model.specs.Bytes.{same};
ghost use Rattle.lines.specs.Parts.{Found, word_at};

pub mod input;
pub mod numbers;
pub mod saying;
pub mod values;

// A word of a line, from one place to another, and the place behind its blank.
#[derive(Clone, Copy)]
pub struct Part {
    pub from: usize,
    pub to: usize,
    pub next: usize,
}

// The place of the first such byte.
fn first(bytes: &[u8], byte: u8) -> Option<usize>
    ensures { result ≡ position (λ b. b == byte) bytes.now }
{
    bytes.iter().position(|&b| b == byte)
}

// The place of the first such byte from a place on; the line's end where there is none.
pub fn find(line: &[u8], at: usize, byte: u8) -> usize
    ensures { Found line.now at byte result }
{
    let from = at.min(line.len());
    match first(&line[from..], byte) {
        Some(n) => from + n,
        None => line.len(),
    }
}

// The word that begins at a place.
pub fn word(line: &[u8], at: usize) -> Part
    ensures { result ≡ word_at line.now at }
{
    let to = find(line, at, b' ');
    Part {
        from: at,
        to,
        next: to + 1,
    }
}

// Whether a word is the last of its line.
pub fn is_last(line: &[u8], part: Part) -> bool
    ensures { result ≡ eqb part.to (length line.now) }
{
    part.to == line.len()
}

// Whether a part of a line is a word.
pub fn is<'a>(line: &'a [u8], part: Part, word: &'a [u8]) -> bool
    ensures { result ≡ same (slice part.from part.to line.now) word.now }
{
    scan::same(line, part.from, part.to, word)
}

// A part of a line, as far as the line goes.
fn cut(line: &[u8], from: usize, to: usize) -> &[u8]
    ensures { result.now ≡ slice from to line.now }
{
    let end = to.min(line.len());
    &line[from.min(end)..end]
}

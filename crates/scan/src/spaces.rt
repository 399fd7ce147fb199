// White space and comments.
ghost use Rattle.std.specs.Prelude.{◌≡◌, ◌≤◌, length};
ghost use Rattle.text.specs.Spaces.{white, spaces_at, line_at};
ghost use Rattle.scan.specs.Blocks.{BlockEnds};
ghost use Rattle.scan.specs.Places.{Reached};

use text::Skipped;

// Where white space and comments end: at a byte, at the end of the text, or at the start of a comment that is not closed.
#[derive(Clone, Copy)]
pub enum Place {
    Byte(usize, u8),
    End(usize),
    Open(usize),
}

fn is_white(b: u8) -> bool
    ensures { result ≡ white b }
{
    match b {
        b' ' => true,
        b'\n' => true,
        b'\r' => true,
        b'\t' => true,
        _ => false,
    }
}

// The place behind the first LF from `at` on, or the end of the text.
fn line_end(s: &[u8], at: usize) -> usize
    requires { at ≤ length s.now }
    ensures { (at ≤ result) × (line_at s.now at ≡ spaces_at s.now result) }
{
    for i in at..s.len() {
        if s[i] == b'\n' {
            return i + 1;
        }
    }
    s.len()
}

// The place behind the first `*/` from `at` on.
fn block_end(s: &[u8], at: usize) -> Option<usize>
    requires { at ≤ length s.now }
    ensures { BlockEnds s.now at result }
{
    for i in at + 1..s.len() {
        if s[i - 1] == b'*' && s[i] == b'/' {
            return Some(i + 1);
        }
    }
    None
}

// Where white space and comments that begin at a place end. A comment is passed at once, so the place is no counter.
fn skip(s: &[u8], at: usize) -> Skipped
    ensures { result ≡ spaces_at s.now at }
{
    let mut i = at;
    while i < s.len() {
        let b = s[i];
        if is_white(b) {
            i += 1;
        } else if b != b'/' || s.len() <= i + 1 {
            return Skipped::Stop(i);
        } else {
            match s[i + 1] {
                b'/' => i = line_end(s, i + 2),
                b'*' => match block_end(s, i + 2) {
                    Some(past) => i = past,
                    None => return Skipped::Open(i),
                },
                _ => return Skipped::Stop(i),
            }
        }
    }
    Skipped::Stop(i)
}

// The byte behind white space and comments that begin at a place with a slash.
fn behind(s: &[u8], at: usize) -> Place
    ensures { Reached s.now at result }
{
    match skip(s, at) {
        Skipped::Stop(place) if place < s.len() => Place::Byte(place, s[place]),
        Skipped::Stop(place) => Place::End(place),
        Skipped::Open(place) => Place::Open(place),
    }
}

// The byte behind white space and comments that begin at a place.
pub fn first(s: &[u8], at: usize) -> Place
    ensures { Reached s.now at result }
{
    for i in at..s.len() {
        match s[i] {
            b if is_white(b) => {}
            b'/' => return behind(s, i),
            b => return Place::Byte(i, b),
        }
    }
    Place::End(at.max(s.len()))
}

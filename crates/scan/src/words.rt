// Names, numbers and words of the text.
ghost use Rattle.std.specs.Prelude.{◌≡◌, ℕ, ◌+◌, ◌≤◌, ◌<◌, min, Bool, true, length, get_or};
ghost use Rattle.std.proofs.Math.Seq.{slice};
ghost use Rattle.model.specs.Bytes.{same as same_word};
ghost use Rattle.text.specs.Words.{letter, word_byte, munch_at, value as value_of};
ghost use Rattle.scan.specs.Runs.{small, mark, Tells, OfWords, Closed, Ends, RunEnds};

// The place behind a word: one that is a name, or one that may be a keyword.
#[derive(Clone, Copy)]
pub enum Run {
    Name(usize),
    Word(usize),
}

pub fn is_letter(b: u8) -> bool
    ensures { result ≡ letter b }
{
    b.is_ascii_alphabetic() || b == b'_'
}

// Whether a byte goes on a name.
pub fn is_word(b: u8) -> bool
    ensures { result ≡ word_byte b }
{
    if b.is_ascii_digit() {
        return true;
    }
    if b < b'0' {
        return false;
    }
    is_letter(b)
}

// Whether a byte goes on a name but no keyword.
fn is_mark(b: u8) -> bool
    ensures { result ≡ mark b }
{
    matches!(b, b'_' | b'0'..=b'9' | b'A'..=b'Z')
}

// The place behind the longest run of bytes from a place on that are taken.
pub fn run_end<F: Fn(u8) -> bool>(s: &[u8], at: usize, takes: F) -> usize
    requires calls { F.IsAlwaysCallable takes }
    requires within { at ≤ length s.now }
    ensures { (test : ℕ → Bool) → Tells test (F.post takes) → result ≡ munch_at test s.now at }
{
    for i in at..s.len() {
        if !takes(s[i]) {
            return i;
        }
    }
    s.len()
}

// The place behind the bytes from a place on that are taken, all of names, in a text whose last byte goes on no name.
// No place is compared with the text's end: with `run_end` in its place a scan takes a fifth more instructions.
fn closed_end<F: Fn(u8) -> bool>(s: &[u8], at: usize, takes: F) -> usize
    requires calls { F.IsAlwaysCallable takes }
    requires words { OfWords (F.post takes) }
    requires closed { Closed s.now at }
    ensures { Ends (F.post takes) s.now at result }
{
    let mut i = at;
    while takes(s[i]) {
        i += 1;
    }
    i
}

// The end of the word that starts at a place with a small letter.
pub(crate) fn word_run(s: &[u8], at: usize) -> Run
    requires { (at < length s.now) × (small (get_or s.now at 0) ≡ true) }
    ensures { RunEnds s.now at result }
{
    let next = at + 1;
    if b'0' <= s[s.len() - 1] {
        return Run::Word(run_end(s, next, is_word));
    }
    let end = closed_end(s, next, |b| b.is_ascii_lowercase());
    if is_mark(s[end]) {
        Run::Name(closed_end(s, end + 1, is_word))
    } else {
        Run::Word(end)
    }
}

// The bytes from start up to end, as far as the text has them.
pub fn part(s: &[u8], start: usize, end: usize) -> &[u8]
    ensures { result.now ≡ slice start end s.now }
{
    let stop = end.min(s.len());
    &s[start.min(stop)..stop]
}

// Whether the bytes from start up to end are a word.
pub fn same(s: &[u8], start: usize, end: usize, word: &[u8]) -> bool
    ensures { result ≡ same_word (slice start end s.now) word.now }
{
    alike(part(s, start, end), word)
}

// Whether two words are the same. They are short, and a call of the library would cost more than the comparison.
pub(crate) fn alike(word: &[u8], other: &[u8]) -> bool
    ensures { result ≡ same_word word.now other.now }
{
    if word.len() != other.len() {
        return false;
    }
    for j in 0..word.len() {
        if word[j] != other[j] {
            return false;
        }
    }
    true
}

// The value of the digits from start up to end, or 4294967296 where it is more.
pub fn value(s: &[u8], start: usize, end: usize) -> u64
    ensures { result ≡ min (value_of (slice start end s.now)) 4294967296 }
{
    let mut n = 0;
    for b in part(s, start, end) {
        n = (n * 10 + u64::from(b.saturating_sub(b'0'))).min(4294967296);
    }
    n
}

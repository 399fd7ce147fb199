// The lines of an input, one after the other, out of a buffer that is filled as they are used.
ghost use Rattle.std.specs.Prelude.{◌≡◌, ◌≤◌, length};

use std::io::{self, Read};

// What is held of the input stands from one place to another.
#[derive(Drop)]
pub struct Lines<'a> {
    buffer: &'a mut [u8],
    from: usize,
    to: usize,
    // What is held is the rest of a line whose beginning was too long, and is passed over.
    over: bool,
    ghost ordered: { from ≤ to },
    ghost inside: { to ≤ length buffer.now },
}

// A line without its LF; one as long as the buffer or longer, told once; or the end of the input. A read that fails is its end.
#[derive(Clone, Copy)]
pub enum Found<'a> {
    Line(&'a [u8]),
    Long,
    End,
}

// What one look at the buffer finds: a line from one place to another, or that more of the input is wanted.
#[derive(Clone, Copy)]
enum Step {
    Line(usize, usize),
    Long,
    End,
    More,
}

impl<'a> Lines<'a> {
    ghost use Rattle.std.specs.Prelude.{◌<◌, ◌++◌, List, ℕ, [], true, false, Option, MatchBool, if◌then◌else◌, ◌==◌, position};
    ghost use Rattle.std.specs.Borrow.{sem};
    ghost use Rattle.std.specs.Io.KnownBytes.{Consumes};
    ghost use Rattle.lines.specs.declared.input.Found.{Found};
    ghost use Rattle.lines.specs.Inputs.{held, Unbroken, Looks, IsWithin, Shows, IsLine, Gives, Advances, Answers, GivesOnce};

    // The lines of an input of which nothing is read yet.
    pub fn new(buffer: &'a mut [u8]) -> Lines<'a>
        ensures same_reference { result.buffer.ghost_name ≡ buffer.entry.ghost_name }
        ensures same { result.buffer.now ≡ buffer.old }
        ensures none { held result ≡ [] }
        ensures at_front { result.to ≡ 0 }
        ensures begins { result.over ≡ false }
    {
        Lines {
            buffer,
            from: 0,
            to: 0,
            over: false,
        }
    }

    // The next line; the last needs no LF.
    pub fn next<R: Read>(&mut self, input: &mut R) -> Found<'_>
        ensures line { IsLine (length self.old.buffer.now) result }
        ensures answers { Answers (R.remaining input.old) (R.remaining input.new) self.old result }
        ensures* gives { sem 𝓛 (GivesOnce (R.remaining input.old) (R.remaining input.new) self.entry result) }
    {
        let step = self.find(input);
        self.found(step)
    }

    // What was found, with the bytes of a line.
    fn found(&self, step: Step) -> Found<'_>
        requires { IsWithin self.now step }
        ensures { Shows self.now step result }
    {
        match step {
            Step::Line(begin, end) => Found::Line(&self.buffer[begin..end]),
            Step::Long => Found::Long,
            Step::End | Step::More => Found::End,
        }
    }

    // What is found; where more was wanted too often, in what is held alone.
    fn find<R: Read>(&mut self, input: &mut R) -> Step
        ensures within { IsWithin self.new result }
        ensures gives { (found : Found) → Shows self.new result found
            → Gives (R.remaining input.old) (R.remaining input.new) self.old self.new found }
    {
        match self.advance(input) {
            Step::More => self.last(),
            found => found,
        }
    }

    // Looks and reads until something is found, 2^64 - 1 times at most.
    fn advance<R: Read>(&mut self, input: &mut R) -> Step
        ensures { Advances (R.remaining input.old) (R.remaining input.new) self.old self.new result }
    {
        for _ in 0..u64::MAX {
            match self.step(input) {
                Step::More => {}
                found => return found,
            }
        }
        Step::More
    }

    // Looks at what is held as at the end of the input.
    fn last(&mut self) -> Step
        ensures within { IsWithin self.new result }
        ensures gives { (input : Option (List ℕ)) (found : Found) → Shows self.new result found
            → Gives input input self.old self.new found }
    {
        let mut nothing = io::empty();
        match self.step(&mut nothing) {
            Step::More => self.step(&mut nothing),
            found => found,
        }
    }

    fn step<R: Read>(&mut self, input: &mut R) -> Step
        ensures same_reference { self.new.buffer.ghost_name ≡ self.old.buffer.ghost_name }
        ensures room { length self.new.buffer.now ≡ length self.old.buffer.now }
        ensures looks { Looks (R.remaining input.old) (R.remaining input.new) self.old self.new result }
    {
        let from = self.from;
        match self.first_end() {
            Some(size) => {
                self.from = from + size + 1;
                self.unless_over(Step::Line(from, from + size))
            }
            None => self.more(input),
        }
    }

    // How much stands before the first LF of what is held.
    fn first_end(&self) -> Option<usize>
        ensures { result ≡ position (λ byte. byte == 10) (held self.now) }
    {
        super::first(&self.buffer[self.from..self.to], b'\n')
    }

    // No line ends in what is held.
    fn more<R: Read>(&mut self, input: &mut R) -> Step
        requires { Unbroken (held self.old) }
        ensures same_reference { self.new.buffer.ghost_name ≡ self.old.buffer.ghost_name }
        ensures room { length self.new.buffer.now ≡ length self.old.buffer.now }
        ensures looks { Looks (R.remaining input.old) (R.remaining input.new) self.old self.new result }
    {
        self.make_room();
        let size = self.to;
        if size == self.buffer.len() {
            return self.full();
        }
        if self.fill(input) {
            return Step::More;
        }
        self.clear();
        if size == 0 {
            return Step::End;
        }
        Step::Line(0, size)
    }

    // What is held moves to the front, unless it is passed over.
    fn make_room(&mut self)
        ensures same_reference { self.new.buffer.ghost_name ≡ self.old.buffer.ghost_name }
        ensures room { length self.new.buffer.now ≡ length self.old.buffer.now }
        ensures front { self.new.from ≡ 0 }
        ensures held { held self.new ≡ (if self.old.over then [] else held self.old) }
        ensures over { self.new.over ≡ self.old.over }
    {
        if self.over {
            self.clear();
        } else {
            self.shift();
        }
    }

    // A line too long is told once; behind it only a buffer of no bytes is full.
    fn full(&mut self) -> Step
        ensures same_reference { self.new.buffer.ghost_name ≡ self.old.buffer.ghost_name }
        ensures same { self.new.buffer.now ≡ self.old.buffer.now }
        ensures none { held self.new ≡ [] }
        ensures over { self.new.over ≡ true }
        ensures found { result ≡ (if self.old.over then Step.End else Step.Long) }
    {
        self.clear();
        let passed = self.over;
        self.over = true;
        if passed { Step::End } else { Step::Long }
    }

    // A line, unless it is passed over; what is held then is not.
    fn unless_over(&mut self, line: Step) -> Step
        ensures same_reference { self.new.buffer.ghost_name ≡ self.old.buffer.ghost_name }
        ensures same { self.new.buffer.now ≡ self.old.buffer.now }
        ensures held { held self.new ≡ held self.old }
        ensures over { self.new.over ≡ false }
        ensures found { result ≡ (if self.old.over then Step.More else line) }
    {
        let passed = self.over;
        self.over = false;
        if passed { Step::More } else { line }
    }

    // Nothing is held.
    fn clear(&mut self)
        ensures same_reference { self.new.buffer.ghost_name ≡ self.old.buffer.ghost_name }
        ensures same { self.new.buffer.now ≡ self.old.buffer.now }
        ensures front { self.new.from ≡ 0 }
        ensures none { held self.new ≡ [] }
        ensures over { self.new.over ≡ self.old.over }
    {
        self.from = 0;
        self.to = 0;
    }

    // What is held, moved to the front.
    fn shift(&mut self)
        ensures same_reference { self.new.buffer.ghost_name ≡ self.old.buffer.ghost_name }
        ensures room { length self.new.buffer.now ≡ length self.old.buffer.now }
        ensures front { self.new.from ≡ 0 }
        ensures held { held self.new ≡ held self.old }
        ensures over { self.new.over ≡ self.old.over }
    {
        let from = self.from;
        let to = self.to;
        self.buffer.copy_within(from..to, 0);
        self.from = 0;
        self.to = to - from;
    }

    // More of the input behind what is held; whether there was any.
    fn fill<R: Read>(&mut self, input: &mut R) -> bool
        ensures same_reference { self.new.buffer.ghost_name ≡ self.old.buffer.ghost_name }
        ensures room { length self.new.buffer.now ≡ length self.old.buffer.now }
        ensures front { self.new.from ≡ self.old.from }
        ensures over { self.new.over ≡ self.old.over }
        ensures read { MatchBool result
            ((read : List ℕ) × (0 < length read) × Consumes (R.remaining input.old) (R.remaining input.new) read
            × (held self.new ≡ held self.old ++ read))
            (Consumes (R.remaining input.old) (R.remaining input.new) [] × (held self.new ≡ held self.old)
            × (self.new.to ≡ self.old.to)) }
    {
        let to = self.to;
        match input.read(&mut self.buffer[to..]) {
            Ok(0) => false,
            Ok(n) => {
                self.to = to + n;
                true
            }
            Err(_) => false,
        }
    }
}

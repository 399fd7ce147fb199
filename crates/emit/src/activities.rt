// The activities of a mode at one instant, put into the table of the code.
ghost use Rattle.std.specs.Prelude.{◌≡◌, ℕ, ◌+◌, ◌*◌, ◌≤◌, ◌<◌, length};
ghost use Rattle.timing.specs.Slots.{spans, next_on, soonest};
ghost use Rattle.timing.specs.Code.{fixed, guarded as guarded_of};
ghost use Rattle.emit.specs.Rows.{guard_by, act_by, acts_by};
ghost use Rattle.emit.specs.Emitted.{listed, Emitted, count_room};
ghost use Rattle.emit.specs.Lines.{body_of, guard_for, line, lines};
ghost use Rattle.emit.specs.Edges.{never, due_by, Edge, Edges};

use super::frames::Frame;
use super::listing::{Listing, UNUSED};
use super::slots::Marks;

// What an activity is asked for at an instant.
#[derive(Clone, Copy)]
pub(crate) enum Kind {
    Termination,
    Update,
    Switch,
    Release,
}

impl Kind {
    // What an activity does.
    #[inline(always)]
    fn body(self, code: &mut Listing, what: usize, driver: usize)
        requires { (code.old.pc + 2 ≤ count_room) × (what < 4294967296) × (driver < 4294967296) }
        ensures code { Emitted (listed code.old) (listed code.new) (fixed (body_of self what driver)) 2 }
        ensures same { code.new.cells.ghost_name ≡ code.old.cells.ghost_name }
    {
        match self {
            Kind::Termination => code.put(2, what, UNUSED),
            Kind::Update => code.put(2, driver, UNUSED),
            Kind::Switch => code.put(7, what, UNUSED),
            Kind::Release => {
                code.put(2, driver, UNUSED);
                code.put(3, what, UNUSED);
            }
        }
    }

    // How many instructions that is.
    #[inline(always)]
    fn size(self) -> usize
        ensures { ((what driver : ℕ) → length (body_of self what driver) ≡ result) × (result ≤ 2) }
    {
        match self {
            Kind::Termination | Kind::Update | Kind::Switch => 1,
            Kind::Release => 2,
        }
    }

    // The guard that counts: a termination has none.
    #[inline(always)]
    fn guard(self, guard: u32) -> u32
        ensures { guard_by result ≡ guard_for self (guard_by guard) }
    {
        match self {
            Kind::Termination => 0,
            Kind::Update | Kind::Switch | Kind::Release => guard,
        }
    }

    // An `if` in front of a guarded activity, whose else goes behind it.
    #[inline(always)]
    fn guarded(self, code: &mut Listing, guard: u32, what: usize, driver: usize)
        requires { (code.old.pc + 3 ≤ count_room) × (what < 4294967296) × (driver < 4294967296) }
        ensures code { Emitted (listed code.old) (listed code.new) (guarded_of (guard_by guard) (body_of self what driver)) 3 }
        ensures same { code.new.cells.ghost_name ≡ code.old.cells.ghost_name }
    {
        if 0 < guard {
            let behind = code.pc + 1 + self.size();
            code.put(4, guard as usize - 1, behind);
        }
        self.body(code, what, driver);
    }

    // Whether that is due where the slots of its frequency do so.
    #[inline(always)]
    fn is_due(self, marks: Marks) -> bool
        ensures { result ≡ due_by self marks }
    {
        match self {
            Kind::Termination | Kind::Update | Kind::Switch => marks.ends,
            Kind::Release => marks.begins,
        }
    }
}

// The activities of a kind: their first row, how many they are, and their first driver.
#[derive(Clone, Copy)]
pub(crate) struct Group {
    pub kind: Kind,
    pub row: usize,
    pub count: usize,
    pub driver: usize,
}

// A mode at time t: the rows of its activities, its numbers, and what the slots of the first frequencies do.
#[derive(Drop)]
pub(crate) struct Instant<'a> {
    pub acts: &'a [u32],
    pub frame: Frame,
    pub t: usize,
    marks: [Marks; 5],
    ghost early: { t < 4294967296 },
    ghost right: { Edges frame.period t marks },
}

impl<'a> Instant<'a> {
    pub(crate) fn new(acts: &'a [u32], frame: Frame, t: usize) -> Self
        requires { t < 4294967296 }
        ensures rows { result.acts.now ≡ acts.now }
        ensures frame { result.frame ≡ frame }
        ensures t { result.t ≡ t }
    {
        let marks = Marks::of_first(frame.period, t);
        Instant {
            acts,
            frame,
            t,
            marks,
        }
    }

    // What the slots of a frequency do.
    #[inline(always)]
    fn marks(&self, frequency: usize) -> Marks
        ensures { Edge self.now.frame.period self.now.t frequency result }
    {
        if frequency < self.marks.len() {
            self.marks[frequency]
        } else {
            Marks::of(self.frame.period, self.t, frequency)
        }
    }

    // The activity of a row; the sooner of `soon` and its first slot end ahead.
    #[inline(always)]
    fn turn(&self, code: &mut Listing, kind: Kind, row: usize, driver: usize, soon: usize) -> usize
        requires { (code.old.pc + 3 ≤ count_room) × (row < 5000000000) × (driver < 4294967296) × (soon ≤ never) }
        ensures code { Emitted (listed code.old) (listed code.new) (line kind self.now.frame.period self.now.t driver (act_by self.now.acts.now row)) 3 }
        ensures soon { result ≡ next_on self.now.t (spans self.now.frame.period (act_by self.now.acts.now row)) soon }
        ensures sooner { result ≤ soon }
        ensures same { code.new.cells.ghost_name ≡ code.old.cells.ghost_name }
    {
        let at = row * 3;
        let marks = self.marks(cells::at32(self.acts, at) as usize);
        if kind.is_due(marks) {
            let guard = kind.guard(cells::at32(self.acts, at + 1));
            let what = cells::at32(self.acts, at + 2) as usize;
            kind.guarded(code, guard, what, driver);
        }
        soon.min(marks.ahead)
    }

    // The activities of a group; the sooner of `soon` and their first slot end ahead.
    #[inline(always)]
    pub(crate) fn run(&self, code: &mut Listing, group: Group, soon: usize) -> usize
        requires { (code.old.pc + 3 * group.count ≤ count_room) × (group.row + group.count < 5000000000) × (group.driver + group.count < 4294967296) × (soon ≤ never) }
        ensures code { Emitted (listed code.old) (listed code.new) (lines group.kind self.now.frame.period self.now.t group.driver (acts_by self.now.acts.now group.row group.count)) (3 * group.count) }
        ensures soon { result ≡ soonest self.now.frame.period self.now.t (acts_by self.now.acts.now group.row group.count) soon }
        ensures sooner { result ≤ soon }
        ensures same { code.new.cells.ghost_name ≡ code.old.cells.ghost_name }
    {
        let mut next = soon;
        for i in 0..group.count {
            next = self.turn(code, group.kind, group.row + i, group.driver + i, next);
        }
        next
    }

    // The sooner of `soon` and the first slot end ahead of a group.
    pub(crate) fn ahead(&self, group: Group, soon: usize) -> usize
        requires { (group.row + group.count < 5000000000) × (soon ≤ never) }
        ensures soon { result ≡ soonest self.now.frame.period self.now.t (acts_by self.now.acts.now group.row group.count) soon }
        ensures sooner { result ≤ soon }
    {
        let mut next = soon;
        for i in 0..group.count {
            let frequency = cells::at32(self.acts, (group.row + i) * 3) as usize;
            next = next.min(self.marks(frequency).ahead);
        }
        next
    }
}

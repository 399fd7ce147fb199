// The blocks of a mode.
ghost use Rattle.std.specs.Prelude.{◌≡◌, ◌+◌, ◌-◌, ◌≤◌, ◌<◌};
ghost use Rattle.timing.specs.Rules.{next_instant};
ghost use Rattle.timing.specs.Code.{◌⊕◌, front as front_of, back as back_of, later_blocks, instants_of, mode_code};
ghost use Rattle.emit.specs.Emitted.{listed, Emitted, count_room};
ghost use Rattle.emit.specs.Frames.{mode_in};

use super::activities::{Instant, Kind};
use super::frames::Frame;
use super::listing::{Listing, UNUSED};

impl Instant<'_> {
    // The instant after this one.
    fn next(&self) -> usize
        ensures { result ≡ next_instant (mode_in self.now.acts.now self.now.frame) self.now.t }
    {
        let frame = self.frame;
        let called = self.ahead(frame.group(Kind::Termination), frame.period);
        let updated = self.ahead(frame.group(Kind::Update), called);
        self.ahead(frame.group(Kind::Switch), updated)
    }

    // Terminations, nop 1, updates, nop 2, switches; the instant after this one.
    fn front(&self, code: &mut Listing) -> usize
        requires { code.old.pc + 290 ≤ count_room }
        ensures code { Emitted (listed code.old) (listed code.new) (front_of self.now.frame.driver (mode_in self.now.acts.now self.now.frame) self.now.t) 290 }
        ensures soon { result ≡ next_instant (mode_in self.now.acts.now self.now.frame) self.now.t }
        ensures same { code.new.cells.ghost_name ≡ code.old.cells.ghost_name }
    {
        let frame = self.frame;
        let ended = self.run(code, frame.group(Kind::Termination), frame.period);
        code.put(0, 1, UNUSED);
        let updated = self.run(code, frame.group(Kind::Update), ended);
        code.put(0, 2, UNUSED);
        self.run(code, frame.group(Kind::Switch), updated)
    }

    // Releases, future, return.
    fn back(&self, code: &mut Listing, distance: usize)
        requires { (code.old.pc + 98 ≤ count_room) × (distance < 4294967296) }
        ensures code { Emitted (listed code.old) (listed code.new) (back_of self.now.frame.driver (mode_in self.now.acts.now self.now.frame) self.now.t distance) 98 }
        ensures same { code.new.cells.ghost_name ≡ code.old.cells.ghost_name }
    {
        let frame = self.frame;
        self.run(code, frame.group(Kind::Release), frame.period);
        let behind = code.pc + 2;
        code.put(1, behind, distance);
        code.put(6, UNUSED, UNUSED);
    }

    // The block of an instant inside the period; the instant after it.
    fn block(&self, code: &mut Listing) -> usize
        requires { (code.old.pc + 388 ≤ count_room) × (self.now.t < self.now.frame.period) }
        ensures code { Emitted (listed code.old) (listed code.new)
            (front_of self.now.frame.driver (mode_in self.now.acts.now self.now.frame) self.now.t ⊕ back_of self.now.frame.driver (mode_in self.now.acts.now self.now.frame) self.now.t (next_instant (mode_in self.now.acts.now self.now.frame) self.now.t - self.now.t)) 388 }
        ensures soon { result ≡ next_instant (mode_in self.now.acts.now self.now.frame) self.now.t }
        ensures same { code.new.cells.ghost_name ≡ code.old.cells.ghost_name }
    {
        let soon = self.front(code);
        self.back(code, soon - self.t);
        soon
    }
}

impl Frame {
    // The blocks behind the begin block, which stands at `begin`; `first` is the first instant.
    fn later(self, code: &mut Listing, acts: &[u32], begin: usize, first: usize)
        requires { (code.old.pc + 1700000000000 ≤ count_room) × (begin ≤ code.old.pc) × (first ≡ next_instant (mode_in acts.now self) 0) }
        ensures code { Emitted (listed code.old) (listed code.new)
            (later_blocks self.driver (mode_in acts.now self) begin (instants_of (mode_in acts.now self))) 1700000000000 }
        ensures same { code.new.cells.ghost_name ≡ code.old.cells.ghost_name }
    {
        let mut t = first;
        while t < self.period {
            t = Instant::new(acts, self, t).block(code);
        }
        Instant::new(acts, self, self.period).front(code);
        code.put(5, begin, UNUSED);
    }

    // All blocks of a mode.
    pub(crate) fn blocks(self, code: &mut Listing, acts: &[u32])
        requires { code.old.pc + 1800000000000 ≤ count_room }
        ensures code { Emitted (listed code.old) (listed code.new) (mode_code self.driver (mode_in acts.now self)) 1800000000000 }
        ensures same { code.new.cells.ghost_name ≡ code.old.cells.ghost_name }
    {
        let begin = code.pc;
        let instant = Instant::new(acts, self, 0);
        let first = instant.next();
        instant.back(code, first);
        self.later(code, acts, begin, first);
    }
}

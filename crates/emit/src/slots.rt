// What the slots of a frequency do at one instant, found by division.
ghost use Rattle.std.specs.Prelude.{◌≡◌, ◌/◌, ◌<◌};
ghost use Rattle.timing.specs.Slots.{slots_from, any_of, span_ends, span_begins, next_on};
ghost use Rattle.emit.specs.Edges.{never, Edge, Edges};

// Later than any instant.
const NEVER: usize = 4294967296;

// The first slot end ahead, and whether a slot begins and whether one ends.
#[derive(Clone, Copy)]
pub(crate) struct Marks {
    pub ahead: usize,
    pub begins: bool,
    pub ends: bool,
}

fn over(number: usize, divisor: usize) -> usize
    ensures { result ≡ number / divisor }
{
    number.checked_div(divisor).unwrap_or(0)
}

// Whether a slot begins at time t. Into t go `slots` slots of this length.
fn begins(frequency: usize, length: usize, slots: usize, t: usize) -> bool
    requires { slots ≡ t / length }
    ensures { result ≡ any_of (span_begins t) (slots_from length frequency 0) }
{
    slots * length == t && slots < frequency
}

// Whether a slot ends at time t.
fn ends(frequency: usize, length: usize, slots: usize, t: usize) -> bool
    requires { slots ≡ t / length }
    ensures { result ≡ any_of (span_ends t) (slots_from length frequency 0) }
{
    if slots * length != t {
        false
    } else if length == 0 {
        0 < frequency
    } else {
        0 < slots && slots <= frequency
    }
}

// The first slot end after t.
fn ahead(frequency: usize, length: usize, slots: usize, t: usize) -> usize
    requires { (slots ≡ t / length) × (t < 4294967296) × (length < 4294967296) }
    ensures { result ≡ next_on t (slots_from length frequency 0) never }
{
    if length == 0 || frequency <= slots {
        return NEVER;
    }
    NEVER.min((slots + 1) * length)
}

impl Marks {
    // What the slots of a frequency do at time t.
    pub(crate) fn of(period: usize, t: usize, frequency: usize) -> Self
        requires { (period < 4294967296) × (t < 4294967296) }
        ensures { Edge period t frequency result }
    {
        let length = over(period, frequency);
        let slots = over(t, length);
        Marks {
            ahead: ahead(frequency, length, slots, t),
            begins: begins(frequency, length, slots, t),
            ends: ends(frequency, length, slots, t),
        }
    }

    // What those of the first frequencies do.
    pub(crate) fn of_first(period: usize, t: usize) -> [Self; 5]
        requires { (period < 4294967296) × (t < 4294967296) }
        ensures { Edges period t result }
    {
        let mut marks = [Marks {
            ahead: NEVER,
            begins: false,
            ends: false,
        }; 5];
        for frequency in 0..marks.len() {
            marks[frequency] = Marks::of(period, t, frequency);
        }
        marks
    }
}

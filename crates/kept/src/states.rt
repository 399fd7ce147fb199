// A state as one number: which it is, and behind that the number of its section.
ghost use Rattle.std.specs.Prelude.{◌≡◌};
ghost use Rattle.kept.specs.Rows.{state_of};
ghost use Rattle.kept.specs.States.{which_of, section_of, number_of};

use text::State;

// Which state it is, its section aside.
#[inline(always)]
fn which(state: State) -> usize
    ensures { result ≡ which_of state }
{
    match state {
        State::Begin => 0,
        State::Module(_) => 1,
        State::Task(_) => 2,
        State::Mode(_) => 3,
        State::Act(_) => 4,
        State::Guarded(_) => 5,
        State::GuardArgs(_) => 6,
        State::Args => 7,
        State::Finish => 8,
    }
}

// The section of a state, or 0.
#[inline(always)]
fn section(state: State) -> u8
    ensures { result ≡ section_of state }
{
    match state {
        State::Begin => 0,
        State::Module(section) => section,
        State::Task(section) => section,
        State::Mode(section) => section,
        State::Act(section) => section,
        State::Guarded(section) => section,
        State::GuardArgs(section) => section,
        State::Args => 0,
        State::Finish => 0,
    }
}

// The number of a state.
pub fn number_of(state: State) -> usize
    ensures number { result ≡ number_of state }
    ensures state { state_of result ≡ state }
{
    let which = which(state);
    let section = section(state);
    section as usize * 16 + which
}

// The state of a number.
pub fn state_of(number: usize) -> State
    ensures { result ≡ state_of number }
{
    let section = (number / 16 % 256) as u8;
    match number % 16 {
        0 => State::Begin,
        1 => State::Module(section),
        2 => State::Task(section),
        3 => State::Mode(section),
        4 => State::Act(section),
        5 => State::Guarded(section),
        6 => State::GuardArgs(section),
        7 => State::Args,
        _ => State::Finish,
    }
}

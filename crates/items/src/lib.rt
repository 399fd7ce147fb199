// The items of a text, one at a place.
// Promises that an item is what text's definition says of its place and state.
// Builds on productions, wants, scan, text and model.
#![tactic(auto)]

ghost use Rattle.std.specs.Prelude.{◌≡◌};
ghost use Rattle.text.specs.Items.{item_at};

use productions::{activities, close, declarations};
use text::{ReadItem, State};

mod acts;
mod modes;
mod modules;
mod sections;
mod tasks;

// The item at a place, in a state.
pub fn item(s: &[u8], state: State, at: usize) -> ReadItem
    ensures { result ≡ item_at s.now state at }
{
    match state {
        State::Begin => close(State::Module(1), declarations::module(s, at)),
        State::Module(k) => modules::body(s, k, at),
        State::Task(k) => tasks::body(s, k, at),
        State::Mode(k) => modes::body(s, k, at),
        State::Act(k) => acts::act(s, k, at),
        State::Guarded(k) => acts::target(s, k, scan::token(s, at)),
        State::GuardArgs(k) => activities::guard_arg(s, k, at),
        State::Args => activities::arg(s, at),
        State::Finish => modules::finish(s, at),
    }
}

// The productions of the grammar: as much of the text as makes one item, token by token.
// Promises that each function answers what text's definition of its production says, whether it is refused or not.
// Builds on wants, scan, text and model.
#![tactic(auto)]

ghost use Rattle.std.specs.Prelude.{◌≡◌};
ghost use Rattle.productions.specs.Read.{closed_of};

use text::{Item, ReadItem, Refusal, State};

pub mod activities;
pub mod declarations;
mod lists;
mod literals;
pub mod modes;
mod ports;
pub mod tasks;

// An item and the place behind it, or a refusal, in front of this state.
#[inline(always)]
pub fn close(state: State, read: Result<(Item, usize), Refusal>) -> ReadItem
    ensures { result ≡ closed_of state read }
{
    // Returned from each arm: the value of a `match` is built elsewhere and copied.
    match read {
        Ok((item, next)) => return ReadItem { item, state, next },
        Err(Refusal { number, at }) => {
            return ReadItem {
                item: Item::No { number, at },
                state,
                next: at,
            };
        }
    }
}

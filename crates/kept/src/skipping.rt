// A walk over rows where they stand, to the next item that may begin a mode.
ghost use Rattle.std.specs.Prelude.{ℕ, ◌≤◌, length, get_or, true, List, ◌≡◌};
ghost use Rattle.kept.specs.Kept.{Kept};
ghost use Rattle.kept.specs.Skips.{Skipped};

use super::held;

// Where a walk stops: the number of an item, and the state, by its number, and the place before it.
#[derive(Clone, Copy)]
pub struct Stop {
    pub item: usize,
    pub state: usize,
    pub at: usize,
}

// Whether a row is of this state and place, and tells an item that begins no mode and that items follow.
fn is_quiet(row: &[usize], state: usize, at: usize) -> bool
    requires { length row.now ≡ 16 }
    ensures { result ≡ true → (get_or row.now 0 0 ≡ 9 → ⊥) × (get_or row.now 0 0 ≤ 18) × (get_or row.now 1 0 ≡ state) × (get_or row.now 2 0 ≡ at) }
{
    row[0] != 9 && row[0] <= 18 && row[1] == state && row[2] == at
}

// From item k on, at a place and in a state by its number, over the rows that are kept, as long as they begin no mode and items follow them.
pub fn to_mode(memo: &[usize], k: usize, state: usize, at: usize) -> Stop
    ensures { (s : List ℕ) → Kept s memo.now → Skipped s state at result.state result.at }
{
    let mut stop = Stop { item: k, state, at };
    for item in k..held(memo) {
        let first = item * 16 + 16;
        let row = &memo[first..first + 16];
        if !is_quiet(row, stop.state, stop.at) {
            break;
        }
        stop = Stop {
            item: item + 1,
            state: row[3],
            at: row[4],
        };
    }
    stop
}

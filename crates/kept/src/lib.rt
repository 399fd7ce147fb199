// The items of a text, kept in an array of numbers that is lent: the first pass fills it, and later walks fetch from it.
// Promises that the first pass answers with the leftmost 2 or 3 and keeps the items of the text in their order, as many as the array has room for, and that an item fetched is the item of the text at its place and state, for every array that the first pass left.
// Builds on the items of a text.
#![tactic(auto)]

ghost use Rattle.std.specs.Prelude.{◌-◌, ◌/◌, min, length, get_or, ◌≡◌, IfSome};
ghost use Rattle.text.specs.Items.{item_at};
ghost use Rattle.kept.specs.Rows.{state_of, read_of};
ghost use Rattle.kept.specs.Seen.{seen_of, seen_in};
ghost use Rattle.kept.specs.Kept.{Kept, Looked};
ghost use Rattle.kept.specs.KeptLaws.{At};

// What a search for a name looks at in a row: its kind, where its first name starts and ends, and the state and the place behind it.
#[derive(Clone, Copy)]
pub struct Seen {
    pub kind: usize,
    pub start: usize,
    pub end: usize,
    pub behind: usize,
    pub next: usize,
}

mod fetching;
mod pass;
mod rows;
mod skipping;
mod states;
mod storing;

pub use pass::syntax;
pub use rows::{
    first_name, first_port, first_value, last_name, second_name, second_port, second_value,
    section, third_name,
};
pub use skipping::{Stop, to_mode};
pub use states::{number_of, state_of};

// How many rows the array holds: row k stands from 16 k + 16 on.
fn held(memo: &[usize]) -> usize
    ensures { result ≡ min (get_or memo.now 0 0) ((length memo.now - 16) / 16) }
{
    if memo.len() < 16 {
        return 0;
    }
    memo[0].min((memo.len() - 16) / 16)
}

// Row k, where it is of this place and state.
fn row_at(memo: &[usize], k: usize, state: usize, at: usize) -> Option<&[usize]>
    ensures { IfSome result (λ row. At memo.now k state at row.now) }
{
    if k >= held(memo) {
        return None;
    }
    let first = k * 16 + 16;
    let row = &memo[first..first + 16];
    if row[1] == state && row[2] == at {
        Some(row)
    } else {
        None
    }
}

// The row of the item that is read at a place, in a state by its number.
fn anew(s: &[u8], number: usize, at: usize, row: &mut [usize; 16])
    ensures { (read_of row.new ≡ item_at s.now (state_of number) at) × (seen_in row.new ≡ seen_of (item_at s.now (state_of number) at)) }
{
    pass::walk(s, row, number, at, 1);
}

// The row of the item at a place, in a state by its number: row k where it is of this place and state, or else read anew.
pub fn fetch(s: &[u8], memo: &[usize], k: usize, state: usize, at: usize, row: &mut [usize; 16])
    ensures { Kept s.now memo.now → read_of row.new ≡ item_at s.now (state_of state) at }
{
    match row_at(memo, k, state, at) {
        Some(kept) => row.copy_from_slice(kept),
        None => anew(s, state, at, row),
    }
}

// What a search looks at in a row.
fn seen_in(row: &[usize]) -> Seen
    requires { length row.now ≡ 16 }
    ensures { result ≡ seen_in row.now }
{
    Seen {
        kind: row[0],
        start: row[5],
        end: row[6],
        behind: row[3],
        next: row[4],
    }
}

// What a search looks at in the item at a place, in a state by its number: as it stands in row k where that is of this place and state.
pub fn look(s: &[u8], memo: &[usize], k: usize, state: usize, at: usize) -> Seen
    ensures seen { Kept s.now memo.now → result ≡ seen_of (item_at s.now (state_of state) at) }
    ensures row { Kept s.now memo.now → Looked s.now state at result.kind result.start result.end result.behind result.next }
{
    match row_at(memo, k, state, at) {
        Some(kept) => seen_in(kept),
        None => {
            let mut row = [0usize; 16];
            anew(s, state, at, &mut row);
            seen_in(&row)
        }
    }
}

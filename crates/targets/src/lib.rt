// The target of a switch: whether its name means a mode, which may be declared further on.
// Promises that the answer is that of the names declared so far, or else of the first mode of that name in the items to come, for every text whose items are kept, every table whose index is right for it, and every place.
// Builds on the kept items of a text, on the table of names, and on what the rules say of a name.
#![tactic(auto)]

ghost use Rattle.std.specs.Prelude.{◌≡◌, ℕ, List, slice_index};
ghost use Rattle.text.specs.Items.{items_from};
ghost use Rattle.refusals.specs.Names.{letters};
ghost use Rattle.kept.specs.Rows.{fields_in, item_of};
ghost use Rattle.kept.specs.Kept.{Kept};
ghost use Rattle.judging.specs.Known.{rows_of, Right};
ghost use Rattle.targets.specs.Ahead.{begins as begins_mode, mode_ahead, is_target};

use judging::Names;
use names::Scope;
use text::{Name, State};

// Whether an item of this kind, with a name from start to end, begins a mode of the name sought.
fn begins(s: &[u8], kind: usize, start: usize, end: usize, sought: Name) -> bool
    ensures { (row : List ℕ) → kind ≡ slice_index row 0 → start ≡ slice_index row 5 → end ≡ slice_index row 6 → result ≡ begins_mode s.now (letters s.now sought) (item_of (fields_in row)) }
{
    kind == 9 && names::same_parts(s, start, end, sought.start, sought.end)
}

// Whether one of the items from a place on begins a mode of the name sought; the first of them is item k.
fn ahead<'a>(
    s: &'a [u8],
    memo: &'a [usize],
    k: usize,
    state: State,
    at: usize,
    sought: Name,
) -> bool
    ensures { Kept s.now memo.now → result ≡ mode_ahead s.now (letters s.now sought) (items_from s.now state at) }
{
    let mut number = k;
    let mut behind = kept::number_of(state);
    let mut place = at;
    while place <= s.len() {
        let stop = kept::to_mode(memo, number, behind, place);
        let seen = kept::look(s, memo, stop.item, stop.state, stop.at);
        if begins(s, seen.kind, seen.start, seen.end, sought) {
            return true;
        }
        if 18 < seen.kind {
            return false;
        }
        if seen.next <= place {
            return false;
        }
        number = stop.item.wrapping_add(1);
        behind = seen.behind;
        place = seen.next;
    }
    false
}

// Whether a name means a mode: by the names so far, or else by the items from a place on, the first of which is item k.
pub fn is_mode(
    names: &Names<'_>,
    memo: &[usize],
    k: usize,
    state: State,
    at: usize,
    name: Name,
) -> bool
    ensures { Right names.now → Kept names.now.text.now memo.now → result ≡ is_target names.now.text.now (rows_of names.now) (items_from names.now.text.now state at) name }
{
    let scope = Scope::Numbered(0);
    let row = names::find(
        names.text,
        names.cells,
        names.rows,
        scope,
        name.start,
        name.end,
    );
    if row.sort < 7 {
        row.sort == 4
    } else {
        ahead(names.text, memo, k, state, at, name)
    }
}

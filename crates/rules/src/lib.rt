// Refusals 4 to 12: the judging pass over a text.
// Promises the leftmost of 4 to 12, for every text whose items are kept, and for a text that breaks none the table of all its names.
// Builds on the kept items of a text, on the rules of declarations and activities, and on what the pass knows at each item.
#![tactic(auto)]

ghost use Rattle.std.specs.Prelude.{◌≡◌, ℕ, ◌<◌, List, slice_index};
ghost use Rattle.text.specs.declared.State.{State};
ghost use Rattle.text.specs.Items.{item_at};
ghost use Rattle.kept.specs.Kept.{Kept};
ghost use Rattle.kept.specs.Rows.{state_of, read_of};
ghost use Rattle.rules.specs.Going.{Going, Ends, Turned, Spread, Judges};

use judging::Names;
use noting::Known;
use text::Refusal;

mod acting;
mod declaring;

// What a turn of the pass leaves: the number of names, and what is known at the next item.
#[derive(Clone, Copy)]
pub(crate) struct Turn {
    pub(crate) rows: usize,
    pub(crate) known: Known,
}

// An item before the modes, by its kind: the module's name, a section, a constant, a sensor, an actuator, a task's name, its input, its output, or its end.
fn declaration_step(
    s: &[u8],
    cells: &mut [usize],
    n: usize,
    known: Known,
    row: &[usize; 16],
) -> Result<Turn, Refusal>
    ensures { slice_index row.now 0 < 9 → (state : State) (at : ℕ) (rates tasks aims : List ℕ) → read_of row.now ≡ item_at s.now state at → Going s.now state at cells.old n known rates tasks aims
        → Turned s.now at (read_of row.now) result cells.new rates tasks aims }
{
    match row[0] {
        0 => declaring::called(n, known, row),
        1 => Ok(Turn { rows: n, known }),
        2 => declaring::constant(s, cells, n, known, row),
        3 => declaring::sensor(s, cells, n, known, row),
        4 => declaring::actuator(s, cells, n, known, row),
        5 => declaring::task(s, cells, n, known, row),
        6 => declaring::input(s, cells, n, known, row),
        7 => declaring::output(s, cells, n, known, row),
        _ => declaring::called(n, known, row),
    }
}

// Item k, whose row this is: it is judged, and where it breaks nothing, what it declares and does is entered.
fn step<'a>(
    s: &'a [u8],
    memo: &'a [usize],
    k: usize,
    cells: &mut [usize],
    n: usize,
    rates: &mut [usize],
    tasks: &mut [usize],
    aims: &mut [usize],
    state: usize,
    at: usize,
    known: Known,
    row: &[usize; 16],
) -> Result<Turn, Refusal>
    ensures { Kept s.now memo.now → read_of row.now ≡ item_at s.now (state_of state) at → Going s.now (state_of state) at cells.old n known rates.old tasks.old aims.old
        → Turned s.now at (read_of row.now) result cells.new rates.new tasks.new aims.new }
{
    let kind = row[0];
    if kind < 9 {
        return declaration_step(s, cells, n, known, row);
    }
    if kind == 9 {
        return acting::begun(s, cells, n, known, row);
    }
    let names = Names {
        text: s,
        cells,
        rows: n,
    };
    match kind {
        10 => acting::headed(&names, rates, known, row),
        11 => acting::guarded(&names, known, row),
        12 => acting::operated(&names, known, row),
        13 => acting::invoked(&names, rates, tasks, known, row),
        14 => acting::argued(&names, known, row),
        15 => acting::updated(&names, aims, known, row),
        16 => acting::switched(&names, memo, k, state, at, known, row),
        17 | 18 => Ok(Turn { rows: n, known }),
        19 => acting::ended(n, known, s.len()),
        _ => Ok(Turn { rows: n, known }),
    }
}

// All items, up to the first that breaks a rule: how many names they declare.
fn fold<'a>(
    s: &'a [u8],
    memo: &'a [usize],
    cells: &mut [usize],
    rates: &mut [usize],
    tasks: &mut [usize],
    aims: &mut [usize],
) -> Result<usize, Refusal>
    requires { Spread cells.old rates.old tasks.old aims.old }
    ensures { Kept s.now memo.now → Ends s.now result cells.new }
{
    let mut row = [0usize; 16];
    let mut state = 0;
    let mut at = 0;
    let mut turn = Turn {
        rows: 0,
        known: Known::nothing(),
    };
    let mut k = 0usize;
    while at <= s.len() {
        kept::fetch(s, memo, k, state, at, &mut row);
        turn = step(
            s, memo, k, cells, turn.rows, rates, tasks, aims, state, at, turn.known, &row,
        )?;
        if 18 < row[0] {
            return Ok(turn.rows);
        }
        if row[4] <= at {
            return Ok(turn.rows);
        }
        state = row[3];
        at = row[4];
        k = k.wrapping_add(1);
    }
    Ok(turn.rows)
}

// The leftmost of 4 to 12 that a text breaks, and where it breaks none the number of the names that it declares, with their table; beside a refusal the table is empty.
pub fn judge<'a>(
    s: &'a [u8],
    memo: &'a [usize],
    cells: &mut [usize; 4672],
) -> Result<usize, Refusal>
    ensures { Kept s.now memo.now → Judges s.now result cells.new }
{
    *cells = [0usize; 4672];
    let mut rates = [0usize; 32];
    let mut tasks = [0usize; 32];
    let mut aims = [0usize; 32];
    let outcome = fold(s, memo, cells, &mut rates, &mut tasks, &mut aims);
    if outcome.is_err() {
        *cells = [0usize; 4672];
    }
    outcome
}

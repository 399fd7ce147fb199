// Rows of cells: one put in among others, and the rows of guards, drivers and activities.
#![tactic(auto, unfolding(layout::specs::Filling::stored, sheets::specs::Sheets::inserted, sheets::specs::Sheets::source_stored))]

ghost use Rattle.std.specs.Prelude.{◌≡◌, [], ◌∷◌, ◌+◌, ◌-◌, ◌*◌, ◌<◌, ◌≤◌, ◌^◌, length};
ghost use Rattle.layout.specs.Filling.{stored};
ghost use Rattle.sheets.specs.Sheets.{raised, inserted, guard_stored, source_stored};

use heads::stores::store;
use sheets::{Acting, Filled, Opened};

// So many cells from a place on, moved up by a width, where the array may end before the last of them.
fn drag(rows: &mut [u32], place: usize, width: usize, count: usize)
    requires { (place < 2 ^ 40) × (width < 2 ^ 10) × (count < 2 ^ 40) }
    ensures { rows.new ≡ raised place width count rows.old }
{
    for left in (0..count).rev() {
        let from = place + left;
        let number = cells::at32(rows, from);
        cells::put32(rows, from + width, number);
        cells::put32(rows, from, 0);
    }
}

// The same where the array has room for all of them.
fn shift(rows: &mut [u32], place: usize, width: usize, count: usize)
    requires { (place < 2 ^ 40) × (width < 2 ^ 10) × (count < 2 ^ 40) × (place + width + count ≤ length rows.old) }
    ensures { rows.new ≡ raised place width count rows.old }
{
    for left in (0..count).rev() {
        let from = place + left;
        rows[from + width] = rows[from];
        rows[from] = 0;
    }
}

// So many cells from a place on, moved up by a width.
fn raise(rows: &mut [u32], place: usize, width: usize, count: usize)
    requires { (place < 2 ^ 40) × (width < 2 ^ 10) × (count < 2 ^ 40) }
    ensures { rows.new ≡ raised place width count rows.old }
{
    if place + width + count <= rows.len() {
        shift(rows, place, width, count);
    } else {
        drag(rows, place, width, count);
    }
}

// A row of a width put in, where so many rows follow.
fn insert(rows: &mut [u32], width: usize, row: usize, behind: usize, cells: &[u32])
    requires { (width < 2 ^ 4) × (row < 2 ^ 35) × (behind < 2 ^ 35) }
    ensures { rows.new ≡ inserted width row behind cells.now rows.old }
{
    let place = row * width;
    raise(rows, place, width, behind * width);
    store(rows, place, cells);
}

// ---- drivers

// A termination put in behind those of the tasks before, where so many rows follow.
pub(super) fn terminate(rows: &mut [u32], task: u32, behind: u32)
    ensures { rows.new ≡ inserted 12 task behind (5 ∷ task ∷ []) rows.old }
{
    insert(rows, 12, task as usize, behind as usize, &[5, task]);
}

// An update put in at a row, where so many rows follow.
pub(super) fn update(rows: &mut [u32], row: usize, behind: u32, source: u32, target: u32)
    requires { row < 2 ^ 35 }
    ensures { rows.new ≡ inserted 12 row behind (3 ∷ target ∷ 1 ∷ source ∷ []) rows.old }
{
    insert(rows, 12, row, behind as usize, &[3, target, 1, source]);
}

// A release without sources yet, at a row behind all others.
pub(super) fn release(rows: &mut [u32], row: usize, task: u32)
    requires { row < 2 ^ 35 }
    ensures { rows.new ≡ stored rows.old (row * 12) (4 ∷ task ∷ 0 ∷ []) }
{
    store(rows, row * 12, &[4, task, 0]);
}

// One source more for the release at a row, which has so many.
pub(super) fn source(rows: &mut [u32], row: usize, sources: u32, port: u32)
    requires { row < 2 ^ 35 }
    ensures { rows.new ≡ source_stored row sources port rows.old }
{
    let place = row * 12;
    cells::put32(rows, place + 2, sources.saturating_add(1));
    cells::put32(rows, place + 3 + sources as usize, port);
}

// ---- activities

// An activity put in at a row, where so many rows follow.
pub(super) fn act(rows: &mut [u32], row: usize, behind: usize, cells: [u32; 3])
    requires { (row < 2 ^ 35) × (behind < 2 ^ 35) }
    ensures { rows.new ≡ inserted 3 row behind cells rows.old }
{
    insert(rows, 3, row, behind, &cells);
}

// ---- guards

// The guard of the activity under way, if it has one, as this number.
pub(super) fn guard(rows: &mut [u32], number: u32, acting: Acting)
    ensures { rows.new ≡ guard_stored number acting rows.old }
{
    if acting.function == 0 {
        return;
    }
    let place = number as usize * 6;
    let function = acting.function - 1;
    if function < 2 {
        store(
            rows,
            place,
            &[function, 1, acting.first_place, acting.first_word],
        );
    } else {
        store(
            rows,
            place,
            &[function, 2, acting.first_place, acting.first_word],
        );
        store(rows, place + 4, &[acting.second_place, acting.second_word]);
    }
}

// ---- modes

// Start and period of a mode, as this number.
pub(super) fn head(rows: &mut [u32], number: u32, mode: Opened)
    ensures { rows.new ≡ stored rows.old (number * 3) (mode.start ∷ mode.period ∷ 0 ∷ []) }
{
    store(rows, number as usize * 3, &[mode.start, mode.period, 0]);
}

// Period, activities of each kind and first activity's row of a mode, behind what is filled.
pub(super) fn frame(rows: &mut [u32], filled: Filled, mode: Opened)
    ensures { rows.new ≡ stored rows.old (filled.modes * 5) (mode.period ∷ mode.calls ∷ mode.updates ∷ mode.switches ∷ filled.acts ∷ []) }
{
    store(
        rows,
        filled.modes as usize * 5,
        &[
            mode.period,
            mode.calls,
            mode.updates,
            mode.switches,
            filled.acts,
        ],
    );
}

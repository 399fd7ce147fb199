// The walk that fills the arrays of modes, guards, activities and drivers.
ghost use Rattle.std.specs.Prelude.{◌≡◌, ◌+◌, ◌-◌, ◌*◌, ◌≤◌, ◌<◌, get_or, length, take, drop};
ghost use Rattle.text.specs.Items.{item_at, items_from, items_of};
ghost use Rattle.kept.specs.Rows.{state_of, read_of};
ghost use Rattle.kept.specs.Kept.{Kept};
ghost use Rattle.names.specs.Index.{Indexed};
ghost use Rattle.sheets.specs.Sheets.{sheet, sheet_of, SameArrays};
ghost use Rattle.sheets.specs.Kept.{no_plan};
ghost use Rattle.build.specs.Walks.{sheet_run};
ghost use Rattle.build.specs.Lent.{Lent};

use super::rows;
use sheets::{Acting, Arrays, Filled, Opened, Plan};
use text::Name;

// How far a walk has come: how many names were declared, and the state, by its number in the lent array, and the place of the next item; a place past the text's end where there is none.
#[derive(Clone, Copy)]
struct Walked {
    declared: usize,
    state: usize,
    at: usize,
}

// A text, its table of names, and how many rows that has in all.
#[derive(Clone, Copy)]
struct Source<'a> {
    s: &'a [u8],
    cells: &'a [usize],
    all: usize,
}

fn nothing() -> Plan
    ensures { result ≡ no_plan }
{
    Plan {
        filled: Filled {
            tasks: 0,
            drivers: 0,
            acts: 0,
            guards: 0,
            modes: 0,
        },
        opened: Opened {
            name: Name { start: 0, end: 0 },
            start: 0,
            period: 0,
            calls: 0,
            updates: 0,
            switches: 0,
            sources: 0,
        },
        acting: Acting {
            frequency: 0,
            function: 0,
            operands: 0,
            first_place: 0,
            first_word: 0,
            second_place: 0,
            second_word: 0,
        },
    }
}

impl Source<'_> {
    // The item of a row put into the arrays: where the walk is behind it.
    fn step(&self, row: &[usize], from: Walked, arrays: &mut Arrays) -> Walked
        requires { (length row.now ≡ 16) × (from.declared ≤ from.at) × (from.at ≤ length self.now.s.now) }
        ensures ahead { from.at < result.at }
        ensures few { result.at ≤ length self.now.s.now → result.declared ≤ result.at }
        ensures run { read_of row.now ≡ item_at self.now.s.now (state_of from.state) from.at → Indexed self.now.s.now self.now.cells.now → sheet_run self.now.s.now self.now.cells.now self.now.all result.declared (items_from self.now.s.now (state_of result.state) result.at) (sheet_of arrays.new) ≡ sheet_run self.now.s.now self.now.cells.now self.now.all from.declared (items_from self.now.s.now (state_of from.state) from.at) (sheet_of arrays.old) }
        ensures same { SameArrays arrays.new arrays.old }
    {
        plans::planned(self.s, self.cells, from.declared, self.all, row, arrays);
        let kind = row[0];
        let next = row[4];
        if rows::over(kind, next, from.at) {
            return Walked {
                at: self.s.len() + 1,
                ..from
            };
        }
        Walked {
            declared: from.declared + rows::declaring(kind),
            state: row[3],
            at: next,
        }
    }

    // A walk over rows of an array, from a place of it on, as long as each is the next.
    fn along(
        &self,
        lent: &[usize],
        first: usize,
        many: usize,
        from: Walked,
        arrays: &mut Arrays,
    ) -> Walked
        requires { (many * 16 ≤ length lent.now - first) × (from.declared ≤ from.at) }
        ensures ahead { 0 < many → get_or (take 16 (drop first lent.now)) 1 0 ≡ from.state → get_or (take 16 (drop first lent.now)) 2 0 ≡ from.at → from.at ≤ length self.now.s.now → from.at < result.at }
        ensures few { result.at ≤ length self.now.s.now → result.declared ≤ result.at }
        ensures run { Lent self.now.s.now lent.now first many → Indexed self.now.s.now self.now.cells.now → sheet_run self.now.s.now self.now.cells.now self.now.all result.declared (items_from self.now.s.now (state_of result.state) result.at) (sheet_of arrays.new) ≡ sheet_run self.now.s.now self.now.cells.now self.now.all from.declared (items_from self.now.s.now (state_of from.state) from.at) (sheet_of arrays.old) }
        ensures same { SameArrays arrays.new arrays.old }
    {
        let mut walked = from;
        for k in 0..many {
            let place = first + k * 16;
            let row = &lent[place..place + 16];
            if self.s.len() < walked.at || !rows::is_of(row, walked.state, walked.at) {
                break;
            }
            walked = self.step(row, walked, arrays);
        }
        walked
    }

    // The rest of a walk, where each row is read anew.
    fn rest(&self, memo: &[usize], from: Walked, arrays: &mut Arrays)
        requires { from.at ≤ length self.now.s.now → from.declared ≤ from.at }
        ensures run { Kept self.now.s.now memo.now → Indexed self.now.s.now self.now.cells.now → sheet_of arrays.new ≡ sheet_run self.now.s.now self.now.cells.now self.now.all from.declared (items_from self.now.s.now (state_of from.state) from.at) (sheet_of arrays.old) }
        ensures same { SameArrays arrays.new arrays.old }
    {
        let mut row = [0; 16];
        let mut walked = from;
        while walked.at <= self.s.len() {
            kept::fetch(self.s, memo, memo.len(), walked.state, walked.at, &mut row);
            walked = self.step(&row, walked, arrays);
        }
    }
}

// Every item of a text, as it is kept, put into the arrays of modes, where the table of names has so many rows in all.
// Each array is a parameter of its own: the caller, which lent them, would spell the same names in a struct.
pub fn planned(
    s: &[u8],
    memo: &[usize],
    cells: &[usize],
    all: usize,
    guard_rows: &mut [u32],
    driver_rows: &mut [u32],
    acts: &mut [u32],
    mode_names: &mut [u8],
    mode_rows: &mut [u32],
    modes: &mut [u32],
) -> Plan
    ensures { Kept s.now memo.now → Indexed s.now cells.now → sheet result guard_rows.new driver_rows.new acts.new mode_names.new mode_rows.new modes.new ≡ sheet_run s.now cells.now all 0 (items_of s.now) (sheet no_plan guard_rows.old driver_rows.old acts.old mode_names.old mode_rows.old modes.old) }
{
    let source = Source { s, cells, all };
    let mut arrays = Arrays {
        plan: nothing(),
        guards: guard_rows,
        drivers: driver_rows,
        acts,
        names: mode_names,
        heads: mode_rows,
        modes,
    };
    let begin = Walked {
        declared: 0,
        state: 0,
        at: 0,
    };
    let walked = source.along(memo, 16, rows::held(memo), begin, &mut arrays);
    source.rest(memo, walked, &mut arrays);
    arrays.plan
}

// The last part of a table: its code, and where the code of each mode begins (document 01, 'The code').
// Promises: the number of instructions is exact, also beyond the table of 4,096; those that fit stand in the lent arrays, and an array with room for code that fits gets it whole.
// Builds on code generation (emit) and on the layout of tables.
#![tactic(auto)]

ghost use Rattle.std.specs.Prelude.{◌≡◌};
ghost use Rattle.coding.specs.Codings.{begun_from, Coded};

// Where the code of each mode begins, put into the last cell of the mode's row.
fn begin_places(begins: &[u32], mode_rows: &mut [u32])
    ensures { mode_rows.new ≡ begun_from mode_rows.old 0 begins.now }
{
    for (k, begin) in begins.iter().enumerate() {
        cells::put32(mode_rows, k * 3 + 2, *begin);
    }
}

// The code of n modes, which stand in rows with their activities, of a module with so many tasks; how many instructions it has.
pub fn coded(
    modes: &[u32],
    n: u32,
    acts: &[u32],
    tasks: u32,
    code: &mut [u32],
    mode_rows: &mut [u32],
) -> usize
    ensures { Coded modes.now acts.now n tasks code.old mode_rows.old code.new mode_rows.new result }
{
    let mut begins = [0; 8];
    let count = emit::generate(modes, n, acts, tasks, code, &mut begins);
    begin_places(&begins, mode_rows);
    count
}

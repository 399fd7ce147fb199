// The code of a module's modes, from flat rows of numbers (document 01, 'The code').
// Promises: the number of instructions is exact, also beyond the table of 4,096; those that fit stand in the table, in rows of 3.
// Builds on cells and on the definitions of timing.
#![tactic(auto)]

ghost use Rattle.emit.specs.Rows.{Generated};

use frames::{Frame, few};
use listing::Listing;

mod activities;
mod blocks;
mod frames;
mod listing;
mod slots;

// The code of n modes of a module with so many tasks; how many instructions it has. It is whole if that is at most 4,096.
pub fn generate(
    modes: &[u32],
    n: u32,
    acts: &[u32],
    tasks: u32,
    code: &mut [u32],
    begins: &mut [u32],
) -> usize
    ensures { Generated modes.now acts.now n tasks code.old begins.old code.new begins.new result }
{
    let mut listing = Listing { cells: code, pc: 0 };
    let mut driver = few(tasks, 32);
    for k in 0..few(n, 8) {
        let frame = Frame::of(modes, k, driver);
        cells::put32(begins, k, listing.place());
        frame.blocks(&mut listing, acts);
        driver += frame.updates + frame.calls;
    }
    listing.pc
}

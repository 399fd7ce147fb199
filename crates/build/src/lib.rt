// The table of a text, without its code, and the rows that code generation takes: two walks over the items that fill lent arrays.
// Promises: for every text and table of names, each array is what the items put there one after the other; of an accepted text, that is its module's table (specs/Accepting).
// Builds on the rows of kept items, and on what each of them puts into the arrays (ports, plans).
#![tactic(auto)]

pub mod declarations;
mod rows;
pub mod schedules;

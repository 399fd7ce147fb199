// What the end of a task, an activity and the end of a mode put into the arrays of the table and into the rows that code generation takes.
// Promises that each puts in what the definitions of sheets say, for every input; where names are looked up, for a table whose index is right for the text.
// Builds on sheets, on heads, on what names mean, and on cells.
#![tactic(auto)]

pub mod acts;
pub mod modes;
mod rows;

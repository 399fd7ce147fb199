// How a table of the file stands in the record of plain arrays (crate tables).
// Promises, as theorems (specs/): arrays filled row by row are the layout, and every cell of a row is its record's.
// Builds on tables and file.
#![tactic(auto)]

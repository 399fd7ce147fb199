// What the machine reads of a table's arrays is what it reads of the table.
// Promises, as theorems (specs/): the board of a sound table's arrays is the table's board, so that starts are the same.
// Builds on emachine, on the layout of tables and on what a table in a file has (referring).
#![tactic(auto)]

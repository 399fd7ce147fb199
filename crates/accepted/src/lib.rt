// What the absence of refusals gives.
// Promises, as theorems (specs/): the module of a text that no rule of 2 to 12 refuses is accepted, its table can stand in a file, and the file that the compiler writes reads back to that table.
// Builds on prescribed, refusals, timing, file, codec, grammar, text and model.
#![tactic(auto)]

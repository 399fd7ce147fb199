// No second answer fits the contract of any function that a program or a host calls, lent arrays included; of the next line of an input, none with the same bytes read.
// Promises, as theorems (specs/): two answers that meet the contract of such a function are the same, and so is what each array lent as `&mut` then holds.
// Builds on the contracts of tdl, ecode, starting, emachine, calls, react, steps, native, lines, naming, referring and cells themselves.
#![tactic(auto)]

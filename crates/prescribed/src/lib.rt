// What document 01 prescribes for a text: the one file, or the one refusal with its place.
// Promises, as theorems (specs/): each answer of `compile_of` has its cause and no second answer has one; no refusal but 1 to 14 exists; the bench cases hold.
// Builds on grammar, refusals, timing, machine, file, text and model.
#![tactic(auto)]

use text::Refusal;

// The answer of compile: the length of the file that now stands at the front of the buffer, or a refusal and its byte offset.
pub type Compiled = Result<usize, Refusal>;

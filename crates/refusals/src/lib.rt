// What a text breaks of the rules 4 to 12, and what an accepted text means: the data that code and definitions share.
// Promises nothing of itself: its definitions (specs/) are document 01's table of refusals, and the module of a text.
// Builds on text and model.
#![tactic(auto)]

use text::Refusal;

// A declared name: where it stands in the text, and what it means.
// scope: 0 the module's, k + 1 the ports of task k.
// sort: 0 constant, 1 sensor, 2 actuator, 3 task, 4 mode, 5 input, 6 output, 7 none.
// typ: 0 int, 1 boolean, 2 none.
// value: a constant's word; the number of a port, a task or a mode.
#[derive(Clone, Copy)]
pub struct Row {
    pub start: usize,
    pub end: usize,
    pub scope: usize,
    pub sort: usize,
    pub typ: usize,
    pub value: usize,
}

// The answer of the rules: none is broken, or the leftmost that is.
pub type Verdict = Result<(), Refusal>;

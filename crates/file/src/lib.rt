// The E-code file: the table that it holds, and its bytes.
// Promises, as theorems (proofs/): reading what was written gives the same table, writing what was read the same bytes; no answer has another number than document 01's.
// Builds on codec, model and text.
#![tactic(auto)]

// A refusal, by its number in document 01.
#[derive(Clone, Copy, PartialEq, Eq)]
pub struct Refused {
    pub number: u8,
}

// The reader returns a table, which stands beside this answer, or one number and no table.
#[derive(Clone, Copy)]
pub enum ReadAnswer {
    Read,
    Refused(u8),
}

// The E-machine as definitions: what each instruction, each reaction and each call does.
// Promises, as laws (specs/): what each opcode does; no other answer exists; a refused call changes nothing, a fault leaves all but itself as before the call; releases so far equal terminations plus tasks out.
// Builds on model and file.
#![tactic(auto)]

// The answer of start and tick: instructions obeyed, or idle; a refusal; fault 40 with the late task; another fault.
#[derive(Clone, Copy)]
pub enum Reaction {
    Obeyed(u32),
    Idle,
    Refused(u8),
    Late(u32),
    Fault(u8),
}

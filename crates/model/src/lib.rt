// The data of a module that code and definitions share: values, operands and guards.
// Promises nothing of itself: its definitions (specs/) say what a module is and what a guard says.
// Builds on nothing.
#![tactic(auto)]

// A value of either type.
#[derive(Clone, Copy)]
pub enum Value {
    Int(i32),
    Flag(bool),
}

// A guard's operand: a port, by its number, or a fixed value.
#[derive(Clone, Copy)]
pub enum Operand {
    Port(u16),
    Fixed(Value),
}

#[derive(Clone, Copy, PartialEq, Eq)]
pub enum Function {
    IsTrue,
    IsFalse,
    Less,
    Equal,
}

// A guard. Where its function takes one operand, the second is port 0 and is not read.
#[derive(Clone, Copy)]
pub struct Guard {
    pub function: Function,
    pub first: Operand,
    pub second: Operand,
}

// The table of a module as one record of plain arrays, as the reader returns it and the machine reads it.
// Promises: what is not used holds its beginning value, zero, in every table that the reader returns (crate ecode).
// Builds on nothing.
#![tactic(auto)]

// What a port is.
pub mod role {
    pub const SENSOR: u32 = 1;

    pub const ACTUATOR: u32 = 2;

    pub const INPUT: u32 = 3;

    pub const OUTPUT: u32 = 4;
}

// The type of a port or of an operand.
pub mod kind {
    pub const INT: u32 = 0;

    pub const BOOLEAN: u32 = 1;
}

// What a driver does.
pub mod tag {
    pub const UPDATES: u32 = 3;

    pub const RELEASES: u32 = 4;

    pub const TERMINATES: u32 = 5;
}

// The function of a guard.
pub mod function {
    pub const IS_TRUE: u32 = 0;

    pub const IS_FALSE: u32 = 1;

    pub const LESS: u32 = 2;

    pub const EQUAL: u32 = 3;
}

// Where an operand of a guard stands: in a port, or as a value of a type in the guard itself.
pub mod place {
    pub const PORT: u32 = 0;

    pub const INT: u32 = 1;

    pub const BOOLEAN: u32 = 2;
}

pub mod opcode {
    pub const NOP: u32 = 0;

    pub const FUTURE: u32 = 1;

    pub const CALL: u32 = 2;

    pub const RELEASE: u32 = 3;

    pub const IF: u32 = 4;

    pub const JUMP: u32 = 5;

    pub const RETURN: u32 = 6;

    pub const SWITCH: u32 = 7;
}

// Counts say how many rows of each array are used. Numbers in rows are 32 bits wide throughout.
#[derive(Clone, Copy, PartialEq, Eq)]
pub struct Table {
    pub sensors: u32,
    pub actuators: u32,
    pub tasks: u32,
    pub drivers: u32,
    pub guards: u32,
    pub modes: u32,
    pub instructions: u32,
    // names in rows of 33: a length and 32 bytes. A sensor has two (name, getter), so have an actuator (name, setter) and a task (name, function)
    pub name: [u8; 33],
    pub sensor_names: [u8; 2112],
    pub actuator_names: [u8; 2112],
    pub task_names: [u8; 2112],
    pub output_names: [u8; 4224],
    pub mode_names: [u8; 264],
    // ports by number: the role of each, its kind, what it holds at the beginning
    pub roles: [u32; 320],
    pub types: [u32; 320],
    pub starts: [u32; 320],
    // rows of 4: first input port, number of inputs, first output port, number of outputs
    pub task_rows: [u32; 128],
    // rows of 12: tag, target port or task, number of sources, up to 8 source ports, a cell that stays 0
    pub driver_rows: [u32; 3456],
    // rows of 6: function, number of operands, then for each its place and its word
    pub guard_rows: [u32; 1536],
    // rows of 3: start (0 or 1), period, begin pc
    pub mode_rows: [u32; 24],
    // rows of 3: opcode and two arguments
    pub code: [u32; 12288],
}

// The parts of an E-code file, put one behind the other into a buffer.
// Promises: whatever the arrays of a table hold, the bytes of each part by their cells, as far as the buffer goes, and the place behind them.
// Builds on cells and on the layout.
#![tactic(auto)]

pub mod drivers;
pub mod guards;
pub mod modes;
pub mod names;
pub mod numbers;
pub mod ports;
pub mod tasks;

// How many rows of each array are used.
#[derive(Clone, Copy)]
pub struct Counts {
    pub sensors: u32,
    pub actuators: u32,
    pub tasks: u32,
    pub drivers: u32,
    pub guards: u32,
    pub modes: u32,
    pub instructions: u32,
}

// The arrays of a table, but for the ports' roles, which no file holds.
#[derive(Clone, Copy)]
pub struct Arrays<'a> {
    pub counts: Counts,
    pub name: &'a [u8],
    pub sensor_names: &'a [u8],
    pub actuator_names: &'a [u8],
    pub task_names: &'a [u8],
    pub output_names: &'a [u8],
    pub mode_names: &'a [u8],
    pub types: &'a [u32],
    pub starts: &'a [u32],
    pub task_rows: &'a [u32],
    pub driver_rows: &'a [u32],
    pub guard_rows: &'a [u32],
    pub mode_rows: &'a [u32],
    pub code: &'a [u32],
}

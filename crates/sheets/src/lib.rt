// What is kept from item to item while the arrays of modes, guards, activities and drivers are filled: the data that code and definitions share.
// Promises, by its laws: where the arrays hold what was read so far, they hold it with each item that comes (specs/Kept).
// Builds on the layout of the table and on what an accepted text means.
#![tactic(auto)]

use text::Name;

// How many rows are filled: terminations, drivers and activities of what is finished, guards, modes.
#[derive(Clone, Copy)]
pub struct Filled {
    pub tasks: u32,
    pub drivers: u32,
    pub acts: u32,
    pub guards: u32,
    pub modes: u32,
}

// The mode under way: where its name stands, 1 for a start mode (as its row has it), its period, its activities so far, and the sources of the task invoked last.
#[derive(Clone, Copy)]
pub struct Opened {
    pub name: Name,
    pub start: u32,
    pub period: u32,
    pub calls: u32,
    pub updates: u32,
    pub switches: u32,
    pub sources: u32,
}

// The activity under way: its frequency, its guard's function (0 none, else its number and 1, as specs/Sheets reads it), the number of operands, and the first two as the table has them.
#[derive(Clone, Copy)]
pub struct Acting {
    pub frequency: u32,
    pub function: u32,
    pub operands: u32,
    pub first_place: u32,
    pub first_word: u32,
    pub second_place: u32,
    pub second_word: u32,
}

// What is kept from item to item.
#[derive(Clone, Copy)]
pub struct Plan {
    pub filled: Filled,
    pub opened: Opened,
    pub acting: Acting,
}

// The arrays that are filled, and what is kept: rows of guards, drivers and activities; names and rows of modes, and what their code is made of.
#[derive(Drop)]
pub struct Arrays<'a> {
    pub plan: Plan,
    pub guards: &'a mut [u32],
    pub drivers: &'a mut [u32],
    pub acts: &'a mut [u32],
    pub names: &'a mut [u8],
    pub heads: &'a mut [u32],
    pub modes: &'a mut [u32],
}

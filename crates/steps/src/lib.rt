// What one instruction of the machine does, over rows of numbers lent from a table: the row itself, drivers, begins of modes.
// Promises: each function is the definition's, for every row and every state; a driver that faults changes nothing.
// Builds on the instructions and the store of machine, on bits, guards and cells.
#![tactic(auto)]

ghost use Rattle.std.specs.Prelude.{◌≡◌, ◌+◌, ◌*◌, get_or};
ghost use Rattle.model.specs.Modules.{place as placed, copy_to};
ghost use Rattle.machine.specs.Store.{part};
ghost use Rattle.steps.specs.Rows.{task_cell};
ghost use Rattle.steps.specs.Steps.{number_of};

pub mod programs;

// An instruction: its opcode and arguments.
#[derive(Clone, Copy)]
pub struct Row {
    pub opcode: u32,
    pub first: u32,
    pub second: u32,
}

// The tasks that are out, those that wait to be handed out, and those that are finished: a word for each.
#[derive(Clone, Copy)]
pub struct Tasks {
    pub out: u64,
    pub waiting: u64,
    pub finished: u64,
}

// Where the next reaction begins, and how long until then.
#[derive(Clone, Copy)]
pub struct Future {
    pub pc: u32,
    pub delay: u32,
}

// What is carried from one instruction to the next: where the next one stands, the mode, the future if one is promised, the tasks.
#[derive(Clone, Copy)]
pub struct Core {
    pub pc: u32,
    pub mode: u32,
    pub future: Option<Future>,
    pub tasks: Tasks,
}

// A reaction that returned: the mode, what comes next, the tasks.
#[derive(Clone, Copy)]
pub struct Halted {
    pub mode: u32,
    pub future: Future,
    pub tasks: Tasks,
}

// Why a reaction ends with no return: a task is late; no instruction is left; a future twice, or none at the return; a task that is out is released.
#[derive(Clone, Copy)]
pub enum Fault {
    Late(u32),
    Wild,
    Astray,
    Clash,
}

impl Fault {
    // Its number in document 01.
    pub fn number(self) -> u8
        ensures { result ≡ number_of self }
    {
        match self {
            Fault::Late(_) => 40,
            Fault::Wild => 41,
            Fault::Astray => 42,
            Fault::Clash => 43,
        }
    }
}

// Words put one after the other from a place on.
pub fn place(words: &[u32], at: u32, into: &mut [u32])
    ensures { into.new ≡ placed at words.now into.old }
{
    for (i, word) in words.iter().enumerate() {
        cells::put32(into, at as usize + i, *word);
    }
}

// The results of a task, which stand aside in eights, handed to the ports from `to` on.
fn hand_out(aside: &[u32], task: u32, count: u32, to: u32, ports: &mut [u32; 320])
    ensures { ports.new ≡ placed to (part aside.now (task * 8) count) ports.old }
{
    let from = task as usize * 8;
    for i in 0..count as usize {
        cells::put32(ports, to as usize + i, cells::at32(aside, from + i));
    }
}

// The source ports of a driver copied to the ports from `to` on.
fn copy_in(drivers: &[u32], driver: u32, count: u32, to: u32, ports: &mut [u32; 320])
    ensures { ports.new ≡ copy_to to (part drivers.now (driver * 12 + 3) count) ports.old }
{
    let from = driver as usize * 12 + 3;
    for i in 0..count as usize {
        let source = cells::at32(drivers, from + i);
        cells::copy32(ports, source as usize, to as usize + i);
    }
}

// A cell of a task's row; 0 past the room.
pub fn task_cell(tasks: &[u32], task: u32, cell: u32) -> u32
    ensures { result ≡ task_cell tasks.now task cell }
{
    if task < 32 {
        cells::at32(tasks, task as usize * 4 + cell as usize)
    } else {
        0
    }
}

// One reaction of the machine, over rows of numbers lent from a table.
// Promises: `react` is the definition's reaction for every row, every state and every list of readings; after a fault the ports are
// what they were.
// Builds on the instructions and the store of machine, on steps and bits.
#![tactic(auto)]

ghost use Rattle.std.specs.Prelude.{◌≡◌, List, ℕ};
ghost use Rattle.model.specs.Modules.{place as placed};
ghost use Rattle.machine.specs.Store.{reaction};
ghost use Rattle.steps.specs.Rows.{instr_by};
ghost use Rattle.steps.specs.Steps.{board_of, store_of, stepped, obey};
ghost use Rattle.react.specs.Runs.{shown, shows, closing, follows};

use steps::programs::Program;
use steps::{Core, Fault, Future, Halted, Row, Tasks};

// How a reaction returned, and the number of instructions obeyed.
#[derive(Clone, Copy)]
pub struct Ran {
    pub halted: Halted,
    pub steps: u32,
}

// One instruction, behind which the core's pc stands: the reaction goes on, returns or ends with a fault.
fn obey(
    program: &Program,
    row: Row,
    aside: &[u32],
    core: &mut Core,
    ports: &mut [u32; 320],
) -> Result<Option<Halted>, Fault>
    ensures { stepped (follows result core.new) ports.new
        ≡ obey (board_of program.now) aside.now (instr_by row.opcode row.first row.second) core.old ports.old }
{
    match row.opcode {
        1 => {
            if core.future.is_some() {
                return Err(Fault::Astray);
            }
            core.future = Some(Future {
                pc: row.first,
                delay: row.second,
            });
        }
        2 => program.drive(row.first, aside, ports, &mut core.tasks)?,
        3 => {
            if bits::has(core.tasks.out, row.first) {
                return Err(Fault::Clash);
            }
            core.tasks.out = bits::join(core.tasks.out, row.first);
            core.tasks.waiting = bits::join(core.tasks.waiting, row.first);
        }
        4 => {
            if !program.holds(row.first, ports) {
                core.pc = row.second;
            }
        }
        5 => core.pc = row.first,
        6 => {
            let future = core.future.ok_or(Fault::Astray)?;
            return Ok(Some(Halted {
                mode: core.mode,
                future,
                tasks: core.tasks,
            }));
        }
        7 => {
            core.mode = row.first;
            core.pc = program.begin_of(row.first);
        }
        _ => {}
    }
    Ok(None)
}

// Instruction after instruction until the reaction ends, at most as many as the code holds: else fault 41.
fn obey_all(
    program: &Program,
    aside: &[u32],
    ports: &mut [u32; 320],
    mode: u32,
    pc: u32,
    tasks: Tasks,
) -> Result<Ran, Fault>
    ensures { (before : List ℕ) → closing before result ports.new
        ≡ shown before (reaction (board_of program.now) aside.now mode pc (store_of tasks ports.old)) }
{
    let mut core = Core {
        pc,
        mode,
        future: None,
        tasks,
    };
    for steps in 0..program.instructions {
        if program.instructions <= core.pc {
            return Err(Fault::Wild);
        }
        let row = program.row_at(core.pc);
        core.pc += 1;
        if let Some(halted) = obey(program, row, aside, &mut core, ports)? {
            return Ok(Ran {
                halted,
                steps: steps + 1,
            });
        }
    }
    Err(Fault::Wild)
}

// Sensors take the readings, then one reaction. The ports change where it returns, and not where it faults.
pub fn react(
    program: &Program,
    aside: &[u32],
    words: &[u32],
    ports: &mut [u32; 320],
    mode: u32,
    pc: u32,
    tasks: Tasks,
) -> Result<Ran, Fault>
    ensures { shows result ports.new ≡ shown ports.old
        (reaction (board_of program.now) aside.now mode pc (store_of tasks (placed 0 words.now ports.old))) }
{
    let before = *ports;
    steps::place(words, 0, ports);
    let ran = obey_all(program, aside, ports, mode, pc, tasks);
    if ran.is_err() {
        *ports = before;
    }
    ran
}

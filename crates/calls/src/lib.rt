// The machine's calls, over a program and arrays lent from a table, and a machine: where it stands, its ports and the results aside.
// Promises: each call is its definition, for every table and every state: the answer, where the machine then stands, and every cell of the lent arrays.
// Builds on the calls of machine, on react, steps, bits and cells.
#![tactic(auto)]

ghost use Rattle.std.specs.Prelude.{◌≡◌, List, [], ℕ};
ghost use Rattle.model.specs.Clock.{fits as fits_of};
ghost use Rattle.machine.specs.Store.{part};
ghost use Rattle.machine.specs.Calls.{reacted, tick, next_task, finish, at_work};
ghost use Rattle.steps.specs.Rows.{board_by};
ghost use Rattle.steps.specs.Steps.{board_of};
ghost use Rattle.calls.specs.States.{marked, standing_in, state_of, store_of, board_at, served, turned, ended, answer_of, begun, stopped_at};
ghost use Rattle.calls.specs.Fitting.{fits_one};

use cells::Instant;
use file::Refused;
use machine::Reaction;
use react::Ran;
use steps::programs::Program;
use steps::{Fault, Tasks};

// The last accepted count, what remains, the mode, where the next reaction begins, the words of tasks; whether the machine is stopped, by which fault,
// and which task was late.
#[derive(Clone, Copy)]
pub struct Standing {
    pub clock: u32,
    pub remaining: u32,
    pub mode: u32,
    pub pc: u32,
    pub out: u64,
    pub waiting: u64,
    pub finished: u64,
    pub stopped: bool,
    pub fault: u8,
    pub late: u32,
}

impl Standing {
    // No task is out, and nothing remains.
    pub fn begin(clock: u32, mode: u32, pc: u32) -> Standing
        ensures { result ≡ begun clock mode pc }
    {
        Standing {
            clock,
            remaining: 0,
            mode,
            pc,
            out: 0,
            waiting: 0,
            finished: 0,
            stopped: false,
            fault: 0,
            late: 0,
        }
    }

    // Stopped by a fault, all else as it was.
    fn stop(&mut self, fault: Fault) -> Reaction
        ensures answer { result ≡ answer_of fault }
        ensures standing { self.new ≡ stopped_at fault self.old }
    {
        self.stopped = true;
        self.fault = fault.number();
        match fault {
            Fault::Late(task) => {
                self.late = task;
                Reaction::Late(task)
            }
            _ => {
                self.late = 0;
                Reaction::Fault(self.fault)
            }
        }
    }

    // A task handed out and not finished.
    fn is_at_work(&self, task: u32) -> bool
        ensures { (ports : List ℕ) → result ≡ at_work (store_of self.now ports) task }
    {
        task < 32
            && bits::has(self.out, task)
            && !bits::has(self.waiting, task)
            && !bits::has(self.finished, task)
    }
}

// Where a machine stands that a host holds in three arrays: numbers (the last accepted count, what remains, the mode, where the next reaction begins, the
// late task), marks (not 0: stopped; the fault) and sets (the tasks out, waiting, finished).
#[inline(always)]
pub fn standing_in(numbers: &[u32; 5], marks: &[u8; 2], sets: &[u64; 3]) -> Standing
    ensures { result ≡ standing_in numbers.now marks.now sets.now }
{
    Standing {
        clock: cells::at32(numbers, 0),
        remaining: cells::at32(numbers, 1),
        mode: cells::at32(numbers, 2),
        pc: cells::at32(numbers, 3),
        out: bits::word_at(sets, 0),
        waiting: bits::word_at(sets, 1),
        finished: bits::word_at(sets, 2),
        stopped: cells::at8(marks, 0) != 0,
        fault: cells::at8(marks, 1),
        late: cells::at32(numbers, 4),
    }
}

// ---- values handed in

fn fits_one(wanted: u32, kind: u32, word: u32) -> bool
    ensures { result ≡ fits_one wanted kind word }
{
    kind == wanted && (kind != 1 || word <= 1)
}

// Values are right in number and type: as many types and words as are wanted from a place on, each of the type wanted.
#[inline(always)]
pub fn fits(wanted: &[u32], at: u32, count: u32, types: &[u32], words: &[u32]) -> bool
    ensures { result ≡ fits_of (part wanted.now at count) types.now words.now }
{
    let n = count as usize;
    if types.len() != n || words.len() != n {
        return false;
    }
    for i in 0..n {
        if !fits_one(cells::at32(wanted, at as usize + i), types[i], words[i]) {
            return false;
        }
    }
    true
}

// ---- start and tick

// Sensors take the readings, then one reaction. A fault stops the machine, all else as before the call.
pub fn react_on(
    program: &Program,
    aside: &[u32],
    ports: &mut [u32; 320],
    at: &mut Standing,
    count: u32,
    words: &[u32],
) -> Reaction
    ensures { served result (state_of at.new ports.new aside.now)
        ≡ reacted (board_of program.now) (state_of at.old ports.old aside.now) count words.now }
{
    let tasks = Tasks {
        out: at.out,
        waiting: at.waiting,
        finished: at.finished,
    };
    match react::react(program, aside, words, ports, at.mode, at.pc, tasks) {
        Ok(Ran { halted, steps }) => {
            at.clock = count;
            at.remaining = halted.future.delay;
            at.mode = halted.mode;
            at.pc = halted.future.pc;
            at.out = halted.tasks.out;
            at.waiting = halted.tasks.waiting;
            at.finished = halted.tasks.finished;
            Reaction::Obeyed(steps)
        }
        Err(fault) => at.stop(fault),
    }
}

// Tick: 31 machine stopped; 32 readings of wrong count or type; 33 instant missed. Less than what remains: idle, the count is accepted and less remains.
// Equal: one reaction.
#[inline(always)]
pub fn tick_on(
    program: &Program,
    aside: &[u32],
    ports: &mut [u32; 320],
    at: &mut Standing,
    count: u32,
    types: &[u32],
    words: &[u32],
) -> Reaction
    ensures { served result (state_of at.new ports.new aside.now)
        ≡ tick (board_at program.now) (state_of at.old ports.old aside.now) count types.now words.now }
{
    if at.stopped {
        return Reaction::Refused(31);
    }
    if !fits(program.types, 0, program.sensors, types, words) {
        return Reaction::Refused(32);
    }
    match cells::judge(at.clock, at.remaining, count) {
        Instant::Early(left) => {
            at.clock = count;
            at.remaining = left;
            Reaction::Idle
        }
        Instant::Due => {
            // Copies: what is lent to a call that is not expanded stands in memory, here for a tick that is due alone.
            let program = *program;
            let mut standing = *at;
            let answer = react_on(&program, aside, ports, &mut standing, count, words);
            *at = standing;
            answer
        }
        Instant::Missed => Reaction::Refused(33),
    }
}

// ---- next task: the lowest-numbered one released and not yet handed out, or none

pub fn next_on(at: &mut Standing) -> Result<Option<u32>, Refused>
    ensures { (ports aside : List ℕ) → turned result (state_of at.new ports aside) ≡ next_task (state_of at.old ports aside) }
{
    if at.stopped {
        return Err(Refused { number: 31 });
    }
    let Some(task) = bits::lowest(at.waiting) else {
        return Ok(None);
    };
    at.waiting = bits::part(at.waiting, task);
    Ok(Some(task))
}

// ---- finish: 31; 34 task not handed out or already finished; 35 results of wrong count or type

// The results go aside and nowhere else.
pub fn finish_on(
    tasks: &[u32],
    wanted: &[u32],
    aside: &mut [u32; 256],
    at: &mut Standing,
    task: u32,
    types: &[u32],
    words: &[u32],
) -> Result<(), Refused>
    ensures { (ports : List ℕ) → ended result (state_of at.new ports aside.new)
        ≡ finish (board_by 0 [] [] [] [] tasks.now wanted.now [] 0 0) (state_of at.old ports aside.old) task types.now words.now }
{
    if at.stopped {
        return Err(Refused { number: 31 });
    }
    if !at.is_at_work(task) {
        return Err(Refused { number: 34 });
    }
    let from = steps::task_cell(tasks, task, 2);
    let count = steps::task_cell(tasks, task, 3);
    if !fits(wanted, from, count, types, words) {
        return Err(Refused { number: 35 });
    }
    steps::place(words, task * 8, aside);
    at.finished = bits::join(at.finished, task);
    Ok(())
}

// The toolchain's face to a host program in C or Rust: compile, read, tick, next task and finish over numbers and lent arrays. Where a machine stands is
// in three of them (crate calls): numbers, marks and sets.
// Promises: each is the definition of its call, its answer as document 01's numbers; what each lent array then holds is settled, after a refusal too.
// Builds on tdl, ecode and calls, and for the machine as one record on emachine.
#![tactic(auto)]

ghost use Rattle.std.specs.Prelude.{◌≡◌, ℕ, List, [], length};
ghost use Rattle.file.specs.Answers.{answer_of, read_number};
ghost use Rattle.file.specs.Files.{decode};
ghost use Rattle.machine.specs.Answers.{reaction_means, turn_means, finishing_means};
ghost use Rattle.machine.specs.Calls.{tick, next_task, finish};
ghost use Rattle.prescribed.specs.Answers.{answered, buffered};
ghost use Rattle.prescribed.specs.Compiles.{compile_of};
ghost use Rattle.reading.specs.Readings.{reading_of, table_in};
ghost use Rattle.steps.specs.Rows.{board_by};
ghost use Rattle.calls.specs.States.{state_of, state_by};
ghost use Rattle.calls.specs.Lent.{numbers_of, sets_of, lent, lent_as, lent_by, sets_as, sets_handed, sets_upon, sets_finished};
ghost use Rattle.native.specs.Faces.{translation, counts_in, held_of, face_of, tick_face, turn_face, finish_face};
ghost use Rattle.native.specs.Copies.{is_read, ticks_from, ticks_of};

use calls::Standing;
use emachine::Machine;
use file::{ReadAnswer, Refused};
use machine::Reaction;
use prescribed::Compiled;
use steps::programs::Program;

// The compiler's answer: the refusal's number, or 0; the refusal's byte offset, or the length of the file.
#[repr(C)]
#[derive(Clone, Copy)]
pub struct Translation {
    pub number: u8,
    pub place: usize,
}

// Where a machine stands (Standing), in the layout of the C interface.
#[repr(C)]
#[derive(Clone, Copy)]
pub struct Held {
    pub clock: u32,
    pub remaining: u32,
    pub mode: u32,
    pub pc: u32,
    pub out: u64,
    pub waiting: u64,
    pub finished: u64,
    pub stopped: bool,
    pub fault: u8,
    pub late: u32,
}

// The answer of a machine's call: the number of a refusal or a fault, or 0; the instructions obeyed; the task that is named, or 4294967295.
#[repr(C)]
#[derive(Clone, Copy)]
pub struct Face {
    pub number: u8,
    pub instructions: u32,
    pub task: u32,
}

// ---- the compiler

fn compiled(answer: Compiled) -> Translation
    ensures { result ≡ translation answer }
{
    match answer {
        Ok(length) => Translation {
            number: 0,
            place: length,
        },
        Err(refusal) => Translation {
            number: refusal.number,
            place: refusal.at,
        },
    }
}

// The file of a text at the front of the buffer, or the refusal.
pub fn native_compile(text: &[u8], out: &mut [u8]) -> Translation
    ensures answer { result ≡ translation (answered (compile_of text.now (length out.old))) }
    ensures buffer { out.new ≡ buffered out.old (compile_of text.now (length out.old)) }
{
    compiled(tdl::compile(text, out))
}

// ---- the reader

fn read_number(answer: ReadAnswer) -> u8
    ensures { result ≡ read_number answer }
{
    match answer {
        ReadAnswer::Read => 0,
        ReadAnswer::Refused(number) => number,
    }
}

// What a machine needs of the table that some bytes hold, into arrays of the host; beside a refusal, its number, they are blank.
// The C interface lends each array by itself.
pub fn native_read(
    bytes: &[u8],
    counts: &mut [u32; 3],
    code: &mut [u32; 12288],
    drivers: &mut [u32; 3456],
    guards: &mut [u32; 1536],
    modes: &mut [u32; 24],
    tasks: &mut [u32; 128],
    types: &mut [u32; 320],
    starts: &mut [u32; 320],
) -> u8
    ensures number { result ≡ read_number (answer_of (decode bytes.now)) }
    ensures counts { counts.new ≡ counts_in (table_in (decode bytes.now)) }
    ensures code { code.new ≡ (table_in (decode bytes.now)).code }
    ensures drivers { drivers.new ≡ (table_in (decode bytes.now)).driver_rows }
    ensures guards { guards.new ≡ (table_in (decode bytes.now)).guard_rows }
    ensures modes { modes.new ≡ (table_in (decode bytes.now)).mode_rows }
    ensures tasks { tasks.new ≡ (table_in (decode bytes.now)).task_rows }
    ensures types { types.new ≡ (table_in (decode bytes.now)).types }
    ensures starts { starts.new ≡ (table_in (decode bytes.now)).starts }
{
    let reading = ecode::read(bytes);
    let table = reading.table;
    *counts = [table.instructions, table.sensors, table.modes];
    // The prover takes no array straight from a field.
    let code_rows = table.code;
    let driver_rows = table.driver_rows;
    let guard_rows = table.guard_rows;
    let mode_rows = table.mode_rows;
    let task_rows = table.task_rows;
    let port_types = table.types;
    let port_starts = table.starts;
    *code = code_rows;
    *drivers = driver_rows;
    *guards = guard_rows;
    *modes = mode_rows;
    *tasks = task_rows;
    *types = port_types;
    *starts = port_starts;
    read_number(reading.answer)
}

// ---- the machine, over arrays of the host

fn told(number: u8, instructions: u32, task: u32) -> Face
    ensures { result ≡ record { number = number; instructions = instructions; task = task } }
{
    Face {
        number,
        instructions,
        task,
    }
}

fn tick_face(answer: Reaction) -> Face
    ensures { result ≡ face_of (reaction_means answer) }
{
    match answer {
        Reaction::Obeyed(instructions) => told(0, instructions, u32::MAX),
        Reaction::Idle => told(0, 0, u32::MAX),
        Reaction::Refused(number) => told(number, 0, u32::MAX),
        Reaction::Late(task) => told(40, 0, task),
        Reaction::Fault(number) => told(number, 0, u32::MAX),
    }
}

fn turn_face(answer: Result<Option<u32>, Refused>) -> Face
    ensures { result ≡ face_of (turn_means answer) }
{
    match answer {
        Ok(Some(task)) => told(0, 0, task),
        Ok(None) => told(0, 0, u32::MAX),
        Err(refused) => told(refused.number, 0, u32::MAX),
    }
}

fn finish_face(answer: Result<(), Refused>) -> Face
    ensures { result ≡ face_of (finishing_means answer) }
{
    match answer {
        Ok(()) => told(0, 0, u32::MAX),
        Err(why) => told(why.number, 0, u32::MAX),
    }
}

// Where a machine stands, as a host holds it.
fn numbers_in(at: &Standing) -> [u32; 5]
    ensures { result ≡ numbers_of (state_of at.now [] []) }
{
    [at.clock, at.remaining, at.mode, at.pc, at.late]
}

fn sets_in(at: &Standing) -> [u64; 3]
    ensures { result ≡ sets_of (state_of at.now [] []) }
{
    [at.out, at.waiting, at.finished]
}

// What a tick, next and finish leave in the host's arrays: after a refusal what they held.
#[inline(always)]
fn write_ticked(
    answer: Reaction,
    at: &Standing,
    numbers: &mut [u32; 5],
    marks: &mut [u8; 2],
    sets: &mut [u64; 3],
)
    ensures { (ports aside : List ℕ) → lent numbers.new marks.new sets.new
        ≡ lent_as (lent numbers.old marks.old sets.old) answer (state_of at.now ports aside) }
{
    match answer {
        Reaction::Obeyed(_) => {
            *numbers = numbers_in(at);
            *sets = sets_in(at);
        }
        Reaction::Idle => *numbers = numbers_in(at),
        Reaction::Refused(_) => {}
        Reaction::Late(_) => {
            *numbers = numbers_in(at);
            *marks = [1, 40];
        }
        Reaction::Fault(number) => {
            *numbers = numbers_in(at);
            *marks = [1, number];
        }
    }
}

fn write_handed(answer: Result<Option<u32>, Refused>, at: &Standing, sets: &mut [u64; 3])
    ensures { (ports aside : List ℕ) → sets.new ≡ sets_as sets.old answer (state_of at.now ports aside) }
{
    match answer {
        Ok(Some(_)) => *sets = sets_in(at),
        Ok(None) => {}
        Err(_) => {}
    }
}

fn write_finished(answer: Result<(), Refused>, at: &Standing, sets: &mut [u64; 3])
    ensures { (ports aside : List ℕ) → sets.new ≡ sets_upon sets.old answer (state_of at.now ports aside) }
{
    match answer {
        Ok(()) => *sets = sets_in(at),
        Err(_) => {}
    }
}

// A tick at a count, with the types and words of the readings.
// The C interface lends each array by itself.
pub fn native_tick(
    instructions: u32,
    code: &[u32; 12288],
    drivers: &[u32; 3456],
    guards: &[u32; 1536],
    modes: &[u32; 24],
    tasks: &[u32; 128],
    wanted: &[u32; 320],
    sensors: u32,
    aside: &[u32; 256],
    ports: &mut [u32; 320],
    numbers: &mut [u32; 5],
    marks: &mut [u8; 2],
    sets: &mut [u64; 3],
    count: u32,
    types: &[u32],
    words: &[u32],
) -> Face
    ensures answer { result ≡ tick_face (tick (board_by instructions code.now drivers.now guards.now modes.now tasks.now wanted.now [] sensors 0)
        (state_by numbers.old marks.old sets.old ports.old aside.now) count types.now words.now) }
    ensures state { state_by numbers.new marks.new sets.new ports.new aside.now
        ≡ (tick (board_by instructions code.now drivers.now guards.now modes.now tasks.now wanted.now [] sensors 0)
        (state_by numbers.old marks.old sets.old ports.old aside.now) count types.now words.now).state }
    ensures lent { lent numbers.new marks.new sets.new
        ≡ lent_by (lent numbers.old marks.old sets.old)
        (tick (board_by instructions code.now drivers.now guards.now modes.now tasks.now wanted.now [] sensors 0)
        (state_by numbers.old marks.old sets.old ports.old aside.now) count types.now words.now) }
{
    let program = Program {
        instructions,
        code,
        drivers,
        guards,
        modes,
        tasks,
        types: wanted,
        sensors,
    };
    let mut at = calls::standing_in(numbers, marks, sets);
    let answer = calls::tick_on(&program, aside, ports, &mut at, count, types, words);
    write_ticked(answer, &at, numbers, marks, sets);
    tick_face(answer)
}

// The next task to run.
pub fn native_next(marks: &[u8; 2], sets: &mut [u64; 3]) -> Face
    ensures answer { (numbers ports aside : List ℕ) → result ≡ turn_face (next_task (state_by numbers marks.now sets.old ports aside)) }
    ensures state { (numbers ports aside : List ℕ) → state_by numbers marks.now sets.new ports aside
        ≡ (next_task (state_by numbers marks.now sets.old ports aside)).state }
    ensures sets { (numbers ports aside : List ℕ) → sets.new
        ≡ sets_handed sets.old (next_task (state_by numbers marks.now sets.old ports aside)) }
{
    let mut at = calls::standing_in(&[0; 5], marks, sets);
    let answer = calls::next_on(&mut at);
    write_handed(answer, &at, sets);
    turn_face(answer)
}

// A task is finished, with the types and words of its results, which go aside.
// The C interface lends each array by itself.
pub fn native_finish(
    tasks: &[u32; 128],
    wanted: &[u32; 320],
    aside: &mut [u32; 256],
    marks: &[u8; 2],
    sets: &mut [u64; 3],
    task: u32,
    types: &[u32],
    words: &[u32],
) -> Face
    ensures answer { (numbers ports : List ℕ) → result ≡ finish_face (finish (board_by 0 [] [] [] [] tasks.now wanted.now [] 0 0)
        (state_by numbers marks.now sets.old ports aside.old) task types.now words.now) }
    ensures state { (numbers ports : List ℕ) → state_by numbers marks.now sets.new ports aside.new
        ≡ (finish (board_by 0 [] [] [] [] tasks.now wanted.now [] 0 0)
        (state_by numbers marks.now sets.old ports aside.old) task types.now words.now).state }
    ensures sets { (numbers ports : List ℕ) → sets.new
        ≡ sets_finished sets.old (finish (board_by 0 [] [] [] [] tasks.now wanted.now [] 0 0)
        (state_by numbers marks.now sets.old ports aside.old) task types.now words.now) }
{
    let mut at = calls::standing_in(&[0; 5], marks, sets);
    let answer = calls::finish_on(tasks, wanted, aside, &mut at, task, types, words);
    write_finished(answer, &at, sets);
    finish_face(answer)
}

// ---- the machine as one record, handed on by value

fn hold(at: Standing) -> Held
    ensures { result ≡ held_of at }
{
    Held {
        clock: at.clock,
        remaining: at.remaining,
        mode: at.mode,
        pc: at.pc,
        out: at.out,
        waiting: at.waiting,
        finished: at.finished,
        stopped: at.stopped,
        fault: at.fault,
        late: at.late,
    }
}

fn is_read(answer: ReadAnswer) -> bool
    ensures { result ≡ is_read answer }
{
    matches!(answer, ReadAnswer::Read)
}

// So many ticks, each so much later than the last accepted count, all with the same readings.
fn ticked(m: Machine, later: u32, times: u32, types: &[u32], words: &[u32]) -> Machine
    ensures { result ≡ ticks_from later types.now words.now times m }
{
    let mut machine = m;
    for _k in 0..times {
        let count = machine.standing.clock.wrapping_add(later);
        machine.tick(count, types, words);
    }
    machine
}

// The file that some bytes hold, started at a count and ticked so many times: where the machine then stands.
pub fn native_ticks(
    bytes: &[u8],
    count: u32,
    later: u32,
    times: u32,
    types: &[u32],
    words: &[u32],
) -> Held
    ensures { result ≡ held_of (ticks_of (reading_of (decode bytes.now)) count later times types.now words.now).standing }
{
    let reading = ecode::read(bytes);
    let begun = emachine::start_on(reading.table, is_read(reading.answer), count, types, words);
    hold(ticked(begun.machine, later, times, types, words).standing)
}

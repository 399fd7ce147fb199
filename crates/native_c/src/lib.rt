// The calls of crate native as functions of a C program: the archive that the header of host/speed's harness names.
// Promises: each export is the call of native of its name, with the same clauses.
// Builds on native.
#![tactic(auto)]

ghost use Rattle.std.specs.Prelude.{◌≡◌, ℕ, List, [], length};
ghost use Rattle.file.specs.Answers.{answer_of, read_number};
ghost use Rattle.file.specs.Files.{decode};
ghost use Rattle.machine.specs.Calls.{tick, next_task, finish};
ghost use Rattle.prescribed.specs.Answers.{answered, buffered};
ghost use Rattle.prescribed.specs.Compiles.{compile_of};
ghost use Rattle.reading.specs.Readings.{reading_of, table_in};
ghost use Rattle.steps.specs.Rows.{board_by};
ghost use Rattle.calls.specs.States.{state_by};
ghost use Rattle.calls.specs.Lent.{lent, lent_by, sets_handed, sets_finished};
ghost use Rattle.native.specs.Faces.{translation, counts_in, held_of, tick_face, turn_face, finish_face};
ghost use Rattle.native.specs.Copies.{ticks_of};

use native::{Face, Held, Translation};

// The file of a text at the front of the buffer, or the refusal.
#[unsafe(no_mangle)]
pub extern "C" fn native_compile(text: &[u8], out: &mut [u8]) -> Translation
    ensures answer { result ≡ translation (answered (compile_of text.now (length out.old))) }
    ensures buffer { out.new ≡ buffered out.old (compile_of text.now (length out.old)) }
{
    native::native_compile(text, out)
}

// What a machine needs of the table that some bytes hold, into arrays of the host; beside a refusal, its number, they are blank.
#[unsafe(no_mangle)]
pub extern "C" fn native_read(
    bytes: &[u8],
    counts: &mut [u32; 3],
    code: &mut [u32; 12288],
    drivers: &mut [u32; 3456],
    guards: &mut [u32; 1536],
    modes: &mut [u32; 24],
    tasks: &mut [u32; 128],
    types: &mut [u32; 320],
    starts: &mut [u32; 320],
) -> u8
    ensures number { result ≡ read_number (answer_of (decode bytes.now)) }
    ensures counts { counts.new ≡ counts_in (table_in (decode bytes.now)) }
    ensures code { code.new ≡ (table_in (decode bytes.now)).code }
    ensures drivers { drivers.new ≡ (table_in (decode bytes.now)).driver_rows }
    ensures guards { guards.new ≡ (table_in (decode bytes.now)).guard_rows }
    ensures modes { modes.new ≡ (table_in (decode bytes.now)).mode_rows }
    ensures tasks { tasks.new ≡ (table_in (decode bytes.now)).task_rows }
    ensures types { types.new ≡ (table_in (decode bytes.now)).types }
    ensures starts { starts.new ≡ (table_in (decode bytes.now)).starts }
{
    native::native_read(
        bytes, counts, code, drivers, guards, modes, tasks, types, starts,
    )
}

// A tick at a count, with the types and words of the readings.
#[unsafe(no_mangle)]
pub extern "C" fn native_tick<'a, 'b>(
    instructions: u32,
    code: &'a [u32; 12288],
    drivers: &'a [u32; 3456],
    guards: &'a [u32; 1536],
    modes: &'a [u32; 24],
    tasks: &'a [u32; 128],
    wanted: &'a [u32; 320],
    sensors: u32,
    aside: &'a [u32; 256],
    ports: &mut [u32; 320],
    numbers: &mut [u32; 5],
    marks: &mut [u8; 2],
    sets: &mut [u64; 3],
    count: u32,
    types: &'b [u32],
    words: &'b [u32],
) -> Face
    ensures answer { result ≡ tick_face (tick (board_by instructions code.now drivers.now guards.now modes.now tasks.now wanted.now [] sensors 0)
        (state_by numbers.old marks.old sets.old ports.old aside.now) count types.now words.now) }
    ensures state { state_by numbers.new marks.new sets.new ports.new aside.now
        ≡ (tick (board_by instructions code.now drivers.now guards.now modes.now tasks.now wanted.now [] sensors 0)
        (state_by numbers.old marks.old sets.old ports.old aside.now) count types.now words.now).state }
    ensures lent { lent numbers.new marks.new sets.new
        ≡ lent_by (lent numbers.old marks.old sets.old)
        (tick (board_by instructions code.now drivers.now guards.now modes.now tasks.now wanted.now [] sensors 0)
        (state_by numbers.old marks.old sets.old ports.old aside.now) count types.now words.now) }
{
    native::native_tick(
        instructions,
        code,
        drivers,
        guards,
        modes,
        tasks,
        wanted,
        sensors,
        aside,
        ports,
        numbers,
        marks,
        sets,
        count,
        types,
        words,
    )
}

// The next task to run.
#[unsafe(no_mangle)]
pub extern "C" fn native_next(marks: &[u8; 2], sets: &mut [u64; 3]) -> Face
    ensures answer { (numbers ports aside : List ℕ) → result ≡ turn_face (next_task (state_by numbers marks.now sets.old ports aside)) }
    ensures state { (numbers ports aside : List ℕ) → state_by numbers marks.now sets.new ports aside
        ≡ (next_task (state_by numbers marks.now sets.old ports aside)).state }
    ensures sets { (numbers ports aside : List ℕ) → sets.new
        ≡ sets_handed sets.old (next_task (state_by numbers marks.now sets.old ports aside)) }
{
    native::native_next(marks, sets)
}

// A task is finished, with the types and words of its results, which go aside.
#[unsafe(no_mangle)]
pub extern "C" fn native_finish<'a, 'b>(
    tasks: &'a [u32; 128],
    wanted: &'a [u32; 320],
    aside: &mut [u32; 256],
    marks: &'a [u8; 2],
    sets: &mut [u64; 3],
    task: u32,
    types: &'b [u32],
    words: &'b [u32],
) -> Face
    ensures answer { (numbers ports : List ℕ) → result ≡ finish_face (finish (board_by 0 [] [] [] [] tasks.now wanted.now [] 0 0)
        (state_by numbers marks.now sets.old ports aside.old) task types.now words.now) }
    ensures state { (numbers ports : List ℕ) → state_by numbers marks.now sets.new ports aside.new
        ≡ (finish (board_by 0 [] [] [] [] tasks.now wanted.now [] 0 0)
        (state_by numbers marks.now sets.old ports aside.old) task types.now words.now).state }
    ensures sets { (numbers ports : List ℕ) → sets.new
        ≡ sets_finished sets.old (finish (board_by 0 [] [] [] [] tasks.now wanted.now [] 0 0)
        (state_by numbers marks.now sets.old ports aside.old) task types.now words.now) }
{
    native::native_finish(tasks, wanted, aside, marks, sets, task, types, words)
}

// The file that some bytes hold, started at a count and ticked so many times: where the machine then stands.
#[unsafe(no_mangle)]
pub extern "C" fn native_ticks<'a, 'b>(
    bytes: &'a [u8],
    count: u32,
    later: u32,
    times: u32,
    types: &'b [u32],
    words: &'b [u32],
) -> Held
    ensures { result ≡ held_of (ticks_of (reading_of (decode bytes.now)) count later times types.now words.now).standing }
{
    native::native_ticks(bytes, count, later, times, types, words)
}

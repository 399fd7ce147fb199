// The three demands over the contracts of the functions that a host calls, in one place: specs/Demands, with the words of specs/Uses and specs/Terms.
// Promises: each function below, and so each function of the toolchain that it calls, meets its relation of specs/Uses; specs/Demands has one theorem for each sentence of the demands over these relations.
// Builds on tdl, ecode, starting and emachine, and on bridge for the theorems.
#![tactic(auto)]

ghost use Rattle.machine.specs.Asks.{tick as ticks, next as nexts, finish as finishes, ticking, turning, finishing};
ghost use Rattle.starting.specs.Starting.{Started};
ghost use Rattle.demands.specs.Uses.{Compiles, Reads, Writes, Judges, Serves, Looks, CountsOut};

use emachine::{Finished, Handed, Machine, Ticked};
use file::Refused;
use machine::Reaction;
use prescribed::Compiled;
use reading::Reading;
use tables::Table;

// The file of a text at the front of the buffer, or the refusal.
pub fn compile(text: &[u8], out: &mut [u8]) -> Compiled
    ensures { Compiles text.now out.old result out.new }
{
    tdl::compile(text, out)
}

// The table that some bytes hold, or the number of the refusal.
pub fn read(bytes: &[u8]) -> Reading
    ensures { Reads bytes.now result }
{
    ecode::read(bytes)
}

// The file of a table, to the front of a buffer.
pub fn write(table: Table, out: &mut [u8]) -> Result<usize, Refused>
    ensures { Writes table out.old result out.new }
{
    ecode::write(&table, out)
}

// Whether the reader can return a table.
pub fn sound(table: Table) -> bool
    ensures { Judges table result }
{
    ecode::sound(&table)
}

// A start at a count, with the types and words of the readings.
pub fn start<'b>(table: Table, count: u32, types: &'b [u32], words: &'b [u32]) -> Ticked
    ensures { Started table count types.now words.now result }
{
    starting::start(table, count, types, words)
}

// A tick at a count, with the types and words of the readings.
pub fn tick<'b>(m: Machine, count: u32, types: &'b [u32], words: &'b [u32]) -> Ticked
    ensures { Serves m (ticks count types.now words.now) (ticking result.answer) result.machine }
{
    emachine::tick(m, count, types, words)
}

// The next task to run.
pub fn next_task(m: Machine) -> Handed
    ensures { Serves m nexts (turning result.answer) result.machine }
{
    emachine::next_task(m)
}

// A task is finished, with the types and words of its results.
pub fn finish<'b>(m: Machine, task: u32, types: &'b [u32], words: &'b [u32]) -> Finished
    ensures { Serves m (finishes task types.now words.now) (finishing result.answer) result.machine }
{
    emachine::finish(m, task, types, words)
}

// The whole machine, stopped or not.
pub fn look(m: Machine) -> Machine
    ensures { Looks m result }
{
    emachine::look(m)
}

// How many tasks are out.
pub fn tasks_out(m: Machine) -> u32
    ensures { CountsOut m result }
{
    emachine::tasks_out(m)
}

// ---- the calls of a machine where it lies, as programs make them

// A tick at a count, with the types and words of the readings.
pub fn tick_in_place(m: &mut Machine, count: u32, types: &[u32], words: &[u32]) -> Reaction
    ensures { Serves m.old (ticks count types.now words.now) (ticking result) m.new }
{
    m.tick(count, types, words)
}

// The next task to run.
pub fn next_task_in_place(m: &mut Machine) -> Result<Option<u32>, Refused>
    ensures { Serves m.old nexts (turning result) m.new }
{
    m.next_task()
}

// A task is finished, with the types and words of its results.
pub fn finish_in_place(
    m: &mut Machine,
    task: u32,
    types: &[u32],
    words: &[u32],
) -> Result<(), Refused>
    ensures { Serves m.old (finishes task types.now words.now) (finishing result) m.new }
{
    m.finish(task, types, words)
}

// The whole machine, stopped or not.
pub fn look_in_place(m: &Machine) -> &Machine
    ensures { Looks m.now result.now }
{
    m.look()
}

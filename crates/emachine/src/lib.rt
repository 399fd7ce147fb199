// The E-machine: one record of a table and a state, and its calls.
// Promises: every call is its definition (document 01, 'The machine'), for every record, one that no start made included: the answer, its number in
// document 01, and every field.
// Builds on the tables, on the calls of machine as definitions and of calls as code.
#![tactic(auto)]

ghost use Rattle.std.specs.Prelude.{◌≡◌, []};
ghost use Rattle.machine.specs.Answers.{reaction_means, turn_means, finishing_means};
ghost use Rattle.machine.specs.Calls.{tick as tick_of, next_task, finish as finish_of, look as look_of, tasks_out};
ghost use Rattle.machine.specs.declared.Reaction.TheVariants as R;
ghost use Rattle.machine.specs.Starts.{start_on, no_machine};
ghost use Rattle.steps.specs.Rows.{board_by, reactive};
ghost use Rattle.steps.specs.Steps.{board_of};
ghost use Rattle.calls.specs.States.{board_at};
ghost use Rattle.emachine.specs.Machines.{board_in, start_by, state_in, machine_of, ticked_on, handed_on, finished_on};
ghost use Rattle.emachine.specs.Meanings.{start_means, tick_means, next_means, finish_means};

use calls::Standing;
use file::Refused;
use machine::Reaction;
use steps::programs::Program;
use tables::Table;

// Everything that look shows, and the table that the machine was started on: no call can meet another.
#[derive(Drop)]
pub struct Machine {
    pub table: Table,
    pub standing: Standing,
    pub ports: [u32; 320],
    pub aside: [u32; 256],
}

#[derive(Drop)]
pub struct Ticked {
    pub answer: Reaction,
    pub machine: Machine,
}

#[derive(Drop)]
pub struct Handed {
    pub answer: Result<Option<u32>, Refused>,
    pub machine: Machine,
}

#[derive(Drop)]
pub struct Finished {
    pub answer: Result<(), Refused>,
    pub machine: Machine,
}

// What a machine's calls read of its table.
fn program_of(table: &Table) -> Program<'_>
    ensures ticks { board_at result ≡ board_by table.now.instructions table.now.code table.now.driver_rows table.now.guard_rows table.now.mode_rows
        table.now.task_rows table.now.types [] table.now.sensors 0 }
    ensures reacts { board_of result ≡ reactive table.now.instructions table.now.code table.now.driver_rows table.now.guard_rows table.now.mode_rows
        table.now.task_rows }
    ensures modes { result.modes.now ≡ table.now.mode_rows }
{
    Program {
        instructions: table.instructions,
        code: &table.code,
        drivers: &table.driver_rows,
        guards: &table.guard_rows,
        modes: &table.mode_rows,
        tasks: &table.task_rows,
        types: &table.types,
        sensors: table.sensors,
    }
}

impl Machine {
    // A tick at a count, with the types and words of the readings.
    pub fn tick(&mut self, count: u32, types: &[u32], words: &[u32]) -> Reaction
        ensures machine { ticked_on self.old.table (tick_of (board_in self.old.table) (state_in self.old) count types.now words.now)
            ≡ record { answer = result; machine = self.new } }
        ensures means { reaction_means result ≡ tick_means (board_in self.old.table) (state_in self.old) count types.now words.now }
    {
        let program = program_of(&self.table);
        calls::tick_on(
            &program,
            &self.aside,
            &mut self.ports,
            &mut self.standing,
            count,
            types,
            words,
        )
    }

    // The next task to run.
    pub fn next_task(&mut self) -> Result<Option<u32>, Refused>
        ensures machine { handed_on self.old.table (next_task (state_in self.old)) ≡ record { answer = result; machine = self.new } }
        ensures means { turn_means result ≡ next_means (state_in self.old) }
    {
        calls::next_on(&mut self.standing)
    }

    // A task is finished, with the types and words of its results.
    pub fn finish(&mut self, task: u32, types: &[u32], words: &[u32]) -> Result<(), Refused>
        ensures machine { finished_on self.old.table (finish_of (board_in self.old.table) (state_in self.old) task types.now words.now)
            ≡ record { answer = result; machine = self.new } }
        ensures means { finishing_means result ≡ finish_means (board_in self.old.table) (state_in self.old) task types.now words.now }
    {
        calls::finish_on(
            &self.table.task_rows,
            &self.table.types,
            &mut self.aside,
            &mut self.standing,
            task,
            types,
            words,
        )
    }

    // The whole machine, stopped or not.
    pub fn look(&self) -> &Machine
        ensures { result.now ≡ machine_of self.now.table (look_of (state_in self.now)) }
    {
        self
    }
}

// ---- the same calls, the machine handed on by value

// A tick at a count, with the types and words of the readings.
pub fn tick(mut m: Machine, count: u32, types: &[u32], words: &[u32]) -> Ticked
    ensures machine { result ≡ ticked_on m.table (tick_of (board_in m.table) (state_in m) count types.now words.now) }
    ensures means { reaction_means result.answer ≡ tick_means (board_in m.table) (state_in m) count types.now words.now }
{
    let answer = m.tick(count, types, words);
    Ticked { answer, machine: m }
}

// The next task to run.
pub fn next_task(mut m: Machine) -> Handed
    ensures machine { result ≡ handed_on m.table (next_task (state_in m)) }
    ensures means { turn_means result.answer ≡ next_means (state_in m) }
{
    let answer = m.next_task();
    Handed { answer, machine: m }
}

// A task is finished, with the types and words of its results.
pub fn finish(mut m: Machine, task: u32, types: &[u32], words: &[u32]) -> Finished
    ensures machine { result ≡ finished_on m.table (finish_of (board_in m.table) (state_in m) task types.now words.now) }
    ensures means { finishing_means result.answer ≡ finish_means (board_in m.table) (state_in m) task types.now words.now }
{
    let answer = m.finish(task, types, words);
    Finished { answer, machine: m }
}

// The whole machine, stopped or not.
pub fn look(m: Machine) -> Machine
    ensures { result ≡ machine_of m.table (look_of (state_in m)) }
{
    m
}

// How many tasks are out.
pub fn tasks_out(m: Machine) -> u32
    ensures { result ≡ tasks_out (state_in m) }
{
    bits::count(m.standing.out)
}

// ---- start

// The number of the first mode that is marked as start.
fn start_mode(modes: &[u32], count: u32) -> u32
    ensures { result ≡ start_by modes.now 0 count }
{
    for mode in 0..count {
        if cells::at32(modes, mode as usize * 3) == 1 {
            return mode;
        }
    }
    count
}

// A refused start makes no machine: what stands in its place is stopped and empty.
fn refused(table: Table, number: u8) -> Ticked
    ensures { result ≡ ticked_on table (record { answer = R.Refused number; state = no_machine }) }
{
    Ticked {
        answer: Reaction::Refused(number),
        machine: Machine {
            table,
            standing: Standing {
                stopped: true,
                ..Standing::begin(0, 0, 0)
            },
            ports: [0; 320],
            aside: [0; 256],
        },
    }
}

// A start on a table of which it is known whether the reader could have returned it: 30 if not; 32 readings of wrong count or type.
pub fn start_on(table: Table, sound: bool, count: u32, types: &[u32], words: &[u32]) -> Ticked
    ensures machine { result ≡ ticked_on table (start_on sound (board_in table) count types.now words.now) }
    ensures means { reaction_means result.answer ≡ start_means sound (board_in table) count types.now words.now }
{
    if !sound {
        return refused(table, 30);
    }
    if !calls::fits(&table.types, 0, table.sensors, types, words) {
        return refused(table, 32);
    }
    let program = program_of(&table);
    let mode = start_mode(&table.mode_rows, table.modes);
    let mut standing = Standing::begin(count, mode, program.begin_of(mode));
    let mut ports = table.starts;
    let aside = [0; 256];
    let answer = calls::react_on(&program, &aside, &mut ports, &mut standing, count, words);
    Ticked {
        answer,
        machine: Machine {
            table,
            standing,
            ports,
            aside,
        },
    }
}

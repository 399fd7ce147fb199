// The names in a table's rows, and its ports by their names, said into a buffer; what is behind its end is lost.
// Promises: what is said, and the place behind it, is given by one definition, whatever the rows hold.
// Builds on lines and cells.
#![tactic(auto)]

ghost use Rattle.std.specs.Prelude.{◌≡◌, ◌*◌, ◌≤◌};
ghost use Rattle.lines.specs.Buffers.{Said};
ghost use Rattle.naming.specs.Names.{name_of, among_of, has_of, owner_from, outputs_of, input_of, task_port_of, port_of};

use lines::saying;

// What names the ports of a table: its counts, its names in rows of 33 bytes and its tasks in rows of 4 numbers.
#[derive(Clone, Copy)]
pub struct Names<'a> {
    pub sensors: u32,
    pub actuators: u32,
    pub tasks: u32,
    pub sensor_names: &'a [u8],
    pub actuator_names: &'a [u8],
    pub task_names: &'a [u8],
    pub output_names: &'a [u8],
    pub task_rows: &'a [u32],
}

// The name in a row of 33 bytes, a length and up to 32 bytes; nothing where the names have no such row.
pub fn named(names: &[u8], row: usize) -> &[u8]
    ensures { result.now ≡ name_of names.now row }
{
    if row < names.len() / 33 {
        let begin = row * 33 + 1;
        let size = (names[row * 33] as usize).min(32);
        &names[begin..begin + size]
    } else {
        &[]
    }
}

// The name in a row, said.
pub fn name(out: &mut [u8], at: usize, names: &[u8], row: usize) -> usize
    ensures { Said out.old at (name_of names.now row) out.new result }
{
    saying::text(out, at, named(names, row))
}

// Whether a port is among so many from a first on.
fn among(number: u32, first: u32, many: u32) -> bool
    ensures { result ≡ among_of number first many }
{
    number >= first && number - first < many
}

// An input behind its task's name: its number in the task, from 1, in parentheses.
fn input(out: &mut [u8], at: usize, behind: u32) -> usize
    ensures { Said out.old at (input_of behind) out.new result }
{
    let open = saying::byte(out, at, b'(');
    let counted = saying::decimal(out, open, behind as u64 + 1);
    saying::byte(out, counted, b')')
}

impl Names<'_> {
    // Whether a port is an input or an output of a task.
    fn has(&self, number: u32, task: u32) -> bool
        ensures { result ≡ has_of self.now.task_rows.now number task }
    {
        let rows = self.task_rows;
        let row = 4 * task as usize;
        among(number, cells::at32(rows, row), cells::at32(rows, row + 1))
            || among(
                number,
                cells::at32(rows, row + 2),
                cells::at32(rows, row + 3),
            )
    }

    // The first task that has a port; as many as there are where none has it.
    fn owner(&self, number: u32) -> u32
        ensures { result ≡ owner_from self.now.task_rows.now number 0 self.now.tasks }
    {
        for task in 0..self.tasks {
            if self.has(number, task) {
                return task;
            }
        }
        self.tasks
    }

    // How many outputs the tasks before one have.
    fn outputs_before(&self, task: u32) -> usize
        ensures { (result ≡ outputs_of self.now.task_rows.now task) × (result ≤ 4294967295 * 4294967295) }
    {
        let mut sum = 0;
        for k in 0..task as usize {
            sum += cells::at32(self.task_rows, 4 * k + 3) as usize;
        }
        sum
    }

    // A task's port: `task(1)` for its first input, `task.output` for an output.
    fn task_port(&self, out: &mut [u8], at: usize, number: u32, task: u32) -> usize
        ensures { Said out.old at (task_port_of self.now.task_names.now self.now.output_names.now self.now.task_rows.now number task) out.new result }
    {
        let rows = self.task_rows;
        let row = 4 * task as usize;
        let named = name(out, at, self.task_names, 2 * task as usize);
        let first_input = cells::at32(rows, row);
        let first_output = cells::at32(rows, row + 2);
        if among(number, first_input, cells::at32(rows, row + 1)) {
            input(out, named, number.saturating_sub(first_input))
        } else if among(number, first_output, cells::at32(rows, row + 3)) {
            let behind = number.saturating_sub(first_output) as usize;
            let dotted = saying::byte(out, named, b'.');
            name(
                out,
                dotted,
                self.output_names,
                self.outputs_before(task) + behind,
            )
        } else {
            named
        }
    }

    // A port by its number: the name of a sensor or an actuator, else a task's port.
    pub fn port(&self, out: &mut [u8], at: usize, number: u32) -> usize
        ensures { Said out.old at (port_of self.now.sensor_names.now self.now.actuator_names.now self.now.task_names.now self.now.output_names.now self.now.task_rows.now self.now.sensors self.now.actuators self.now.tasks number) out.new result }
    {
        if number < self.sensors {
            return name(out, at, self.sensor_names, 2 * number as usize);
        }
        let behind = number - self.sensors;
        if behind < self.actuators {
            name(out, at, self.actuator_names, 2 * behind as usize)
        } else {
            self.task_port(out, at, number, self.owner(number))
        }
    }
}

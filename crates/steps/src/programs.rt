// What a tick reads of a table, lent from it.
ghost use Rattle.std.specs.Prelude.{◌≡◌, get_or};
ghost use Rattle.machine.specs.Words.{has as has_of};
ghost use Rattle.machine.specs.Store.{ended, driven};
ghost use Rattle.model.specs.Values.{holds as holds_of};
ghost use Rattle.guards.specs.Rows.{guard_in};
ghost use Rattle.steps.specs.Rows.{row_of, driver_in, begins_by};
ghost use Rattle.steps.specs.Steps.{board_of, store_of, drove, settles};

use super::{Fault, Row, Tasks, copy_in, hand_out, task_cell};

// How many instructions and sensors there are, the rows of a table's parts, and the types of its ports.
#[derive(Clone, Copy)]
pub struct Program<'a> {
    pub instructions: u32,
    pub code: &'a [u32],
    pub drivers: &'a [u32],
    pub guards: &'a [u32],
    pub modes: &'a [u32],
    pub tasks: &'a [u32],
    pub types: &'a [u32],
    pub sensors: u32,
}

impl Program<'_> {
    // The instruction at a place of the code.
    pub fn row_at(&self, pc: u32) -> Row
        ensures { result ≡ row_of self.now.code.now pc }
    {
        let at = pc as usize * 3;
        if at + 2 < self.code.len() {
            return Row {
                opcode: self.code[at],
                first: self.code[at + 1],
                second: self.code[at + 2],
            };
        }
        Row {
            opcode: cells::at32(self.code, at),
            first: cells::at32(self.code, at + 1),
            second: cells::at32(self.code, at + 2),
        }
    }

    // Where a mode's code begins; 0 past the room.
    pub fn begin_of(&self, mode: u32) -> u32
        ensures { result ≡ get_or (begins_by self.now.modes.now) mode 0 }
    {
        if mode < 8 {
            cells::at32(self.modes, mode as usize * 3 + 2)
        } else {
            0
        }
    }

    // Whether a guard holds where the ports hold these words.
    pub fn holds(&self, guard: u32, ports: &[u32]) -> bool
        ensures { result ≡ holds_of ports.now (guard_in self.now.guards.now guard) }
    {
        guards::holds(ports, guards::guard_at(self.guards, guard))
    }

    // Terminating a task that is not out: nothing happens. One that is out and not finished is late. Else its results go to its outputs.
    fn terminate(
        &self,
        task: u32,
        aside: &[u32],
        ports: &mut [u32; 320],
        tasks: &mut Tasks,
    ) -> Result<(), Fault>
        ensures { drove result tasks.new ports.new ≡ settles tasks.old ports.old
            (ended (board_of self.now) aside.now task (store_of tasks.old ports.old) (has_of tasks.old.out task) (has_of tasks.old.finished task)) }
    {
        if !bits::has(tasks.out, task) {
            return Ok(());
        }
        if !bits::has(tasks.finished, task) {
            return Err(Fault::Late(task));
        }
        let to = task_cell(self.tasks, task, 2);
        let count = task_cell(self.tasks, task, 3);
        hand_out(aside, task, count, to, ports);
        tasks.out = bits::part(tasks.out, task);
        tasks.finished = bits::part(tasks.finished, task);
        Ok(())
    }

    // A driver: 3 copies a source to an actuator's port, 4 sources to a task's inputs, 5 terminates a task.
    pub fn drive(
        &self,
        driver: u32,
        aside: &[u32],
        ports: &mut [u32; 320],
        tasks: &mut Tasks,
    ) -> Result<(), Fault>
        ensures { drove result tasks.new ports.new ≡ settles tasks.old ports.old
            (driven (board_of self.now) aside.now (driver_in self.now.drivers.now driver) (store_of tasks.old ports.old)) }
    {
        if 288 <= driver {
            return Ok(());
        }
        let at = driver as usize * 12;
        let target = cells::at32(self.drivers, at + 1);
        match cells::at32(self.drivers, at) {
            4 => {
                let count = cells::at32(self.drivers, at + 2);
                let to = task_cell(self.tasks, target, 0);
                copy_in(self.drivers, driver, count, to, ports);
                Ok(())
            }
            5 => self.terminate(target, aside, ports, tasks),
            _ => {
                let source = cells::at32(self.drivers, at + 3);
                cells::copy32(ports, source as usize, target as usize);
                Ok(())
            }
        }
    }
}

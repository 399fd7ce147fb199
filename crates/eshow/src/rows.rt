// The rows of a table, by their numbers.
use tables::Table;

// So many numbers from a place on; zeros where the rows end before.
fn row<const N: usize>(rows: &[u32], begin: usize) -> [u32; N] {
    let rest = &rows[begin.min(rows.len())..];
    match rest.first_chunk() {
        Some(&row) => row,
        None => [0; N],
    }
}

#[derive(Clone, Copy)]
pub(crate) struct Task {
    pub first_input: u32,
    pub inputs: u32,
    pub first_output: u32,
    pub outputs: u32,
}

impl Task {
    pub(crate) fn of(table: &Table, number: u32) -> Task {
        let [first_input, inputs, first_output, outputs] = row::<4>(
            &table.task_rows,
            4 * number as usize,
        );
        Task {
            first_input,
            inputs,
            first_output,
            outputs,
        }
    }
}

#[derive(Clone, Copy)]
pub(crate) struct Driver {
    // 3 an actuator's update, 4 a release, 5 a termination
    pub tag: u32,
    // the port of an update, the task of the others
    pub target: u32,
    count: u32,
    sources: [u32; 8],
}

impl Driver {
    pub(crate) fn of(table: &Table, number: u32) -> Driver {
        let begin = 12 * number as usize;
        let [tag, target, count] = row::<3>(&table.driver_rows, begin);
        Driver {
            tag,
            target,
            count,
            sources: row(&table.driver_rows, begin + 3),
        }
    }

    // The source of an update.
    pub(crate) fn source(&self) -> u32 {
        self.sources[0]
    }

    // The sources of a release.
    pub(crate) fn sources(&self) -> &[u32] {
        let count = self.count as usize;
        &self.sources[..count.min(8)]
    }
}

// What a guard compares.
#[derive(Clone, Copy)]
pub(crate) struct Operand {
    // 0 a port, 1 an int, 2 a boolean
    pub place: u32,
    pub word: u32,
}

#[derive(Clone, Copy)]
pub(crate) struct Guard {
    // 0 is_true, 1 is_false, 2 less, 3 equal
    pub function: u32,
    count: u32,
    operands: [Operand; 2],
}

impl Guard {
    pub(crate) fn of(table: &Table, number: u32) -> Guard {
        let [function, count, place, word, second_place, second_word] = row::<6>(
            &table.guard_rows,
            6 * number as usize,
        );
        let second = Operand {
            place: second_place,
            word: second_word,
        };
        Guard {
            function,
            count,
            operands: [Operand { place, word }, second],
        }
    }

    pub(crate) fn operands(&self) -> &[Operand] {
        let count = self.count as usize;
        &self.operands[..count.min(2)]
    }
}

#[derive(Clone, Copy)]
pub(crate) struct Mode {
    pub start: u32,
    pub period: u32,
    // where its code begins
    pub begin: u32,
}

impl Mode {
    pub(crate) fn of(table: &Table, number: u32) -> Mode {
        let [start, period, begin] = row::<3>(&table.mode_rows, 3 * number as usize);
        Mode {
            start,
            period,
            begin,
        }
    }
}

// An opcode and its two arguments.
pub(crate) fn instruction(table: &Table, number: u32) -> [u32; 3] {
    row(&table.code, 3 * number as usize)
}

// Tasks, with their inputs and outputs.
ghost use Rattle.std.specs.Prelude.{◌≡◌, ◌<◌, ◌^◌};
ghost use Rattle.writing.specs.Wrote.{Wrote, tasks_of};
ghost use Rattle.writing.specs.Cells.{inputs_in, output_in, outputs_in, outputs_before, task_in, tasks_in};

use super::Arrays;
use super::numbers::{Out, few};

// The inputs from port `from` on.
fn inputs(out: &mut Out<'_>, t: &Arrays<'_>, from: u32, many: u32)
    ensures { Wrote out.old (inputs_in t.now.types.now from many) out.new }
{
    out.byte(many);
    for k in 0..few(many, 8) {
        out.byte(cells::at32(t.types, from as usize + k));
    }
}

// Output k of those from port `from` on, the first of which has this row of the outputs' names.
fn output(out: &mut Out<'_>, t: &Arrays<'_>, row: usize, from: usize, k: usize)
    requires { (row < 65536) × (from < 2 ^ 32) × (k < 65536) }
    ensures { Wrote out.old (output_in t.now.output_names.now t.now.types.now t.now.starts.now row from k) out.new }
{
    out.name(t.output_names, (row + k) * 33);
    out.byte(cells::at32(t.types, from + k));
    out.quad(cells::at32(t.starts, from + k));
}

fn outputs(out: &mut Out<'_>, t: &Arrays<'_>, row: usize, from: u32, many: u32)
    requires { row < 65536 }
    ensures { Wrote out.old (outputs_in t.now.output_names.now t.now.types.now t.now.starts.now row from many) out.new }
{
    out.byte(many);
    for k in 0..few(many, 8) {
        output(out, t, row, from as usize, k);
    }
}

// Task k, the first of whose outputs has this row of the outputs' names.
fn task(out: &mut Out<'_>, t: &Arrays<'_>, k: usize, row: usize)
    requires { (k < 65536) × (row < 65536) × (row ≡ outputs_before t.now.task_rows.now k) }
    ensures { Wrote out.old (task_in (tasks_of t.now) k) out.new }
{
    let at = k * 4;
    out.name(t.task_names, k * 66);
    out.name(t.task_names, k * 66 + 33);
    inputs(
        out,
        t,
        cells::at32(t.task_rows, at),
        cells::at32(t.task_rows, at + 1),
    );
    outputs(
        out,
        t,
        row,
        cells::at32(t.task_rows, at + 2),
        cells::at32(t.task_rows, at + 3),
    );
}

pub fn tasks(out: &mut Out<'_>, t: &Arrays<'_>)
    ensures { Wrote out.old (tasks_in (tasks_of t.now) t.now.counts.tasks) out.new }
{
    out.pair(t.counts.tasks);
    let mut row = 0;
    for k in 0..few(t.counts.tasks, 32) {
        task(out, t, k, row);
        row += few(cells::at32(t.task_rows, k * 4 + 3), 8);
    }
}

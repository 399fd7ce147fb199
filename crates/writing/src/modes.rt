// Modes and code.
ghost use Rattle.std.specs.Prelude.{◌+◌, ◌*◌, ◌≤◌, ◌<◌, ◌^◌, length};
ghost use Rattle.writing.specs.Wrote.{Wrote};
ghost use Rattle.writing.specs.Puts.{parts};
ghost use Rattle.writing.specs.Cells.{mode_in, modes_in, instruction_at, code_in};

use super::Arrays;
use super::numbers::{Out, few};

fn mode(out: &mut Out<'_>, t: &Arrays<'_>, k: usize)
    requires { k < 65536 }
    ensures { Wrote out.old (mode_in t.now.mode_names.now t.now.mode_rows.now k) out.new }
{
    out.name(t.mode_names, k * 33);
    out.byte(cells::at32(t.mode_rows, k * 3));
    out.quad(cells::at32(t.mode_rows, k * 3 + 1));
    out.quad(cells::at32(t.mode_rows, k * 3 + 2));
}

pub fn modes(out: &mut Out<'_>, t: &Arrays<'_>)
    ensures { Wrote out.old (modes_in t.now.mode_names.now t.now.mode_rows.now t.now.counts.modes) out.new }
{
    out.pair(t.counts.modes);
    for k in 0..few(t.counts.modes, 8) {
        mode(out, t, k);
    }
}

fn instruction(out: &mut Out<'_>, t: &Arrays<'_>, row: usize)
    requires { row < 2 ^ 32 }
    ensures { Wrote out.old (instruction_at t.now.code.now row) out.new }
{
    out.byte(cells::at32(t.code, row));
    out.quad(cells::at32(t.code, row + 1));
    out.quad(cells::at32(t.code, row + 2));
}

// Instructions where the rows or the buffer may end within them.
fn cut_code(out: &mut Out<'_>, t: &Arrays<'_>, many: usize)
    requires { many ≤ 4096 }
    ensures { Wrote out.old (parts (λ j. instruction_at t.now.code.now (j * 3)) many) out.new }
{
    for k in 0..many {
        instruction(out, t, k * 3);
    }
}

// An instruction that the rows hold and the buffer has room for.
#[inline(always)]
fn whole_instruction(out: &mut Out<'_>, rows: &[u32], row: usize)
    requires { (out.old.at + 9 ≤ length out.old.buffer.now) × (row + 3 ≤ length rows.now) }
    ensures { Wrote out.old (instruction_at rows.now row) out.new }
{
    out.put_whole(&[(rows[row] % 256) as u8]);
    out.whole_quad(rows[row + 1]);
    out.whole_quad(rows[row + 2]);
}

// Instructions that the rows hold and the buffer has room for.
fn whole_code(out: &mut Out<'_>, rows: &[u32], many: usize)
    requires { (many ≤ 4096) × (out.old.at + many * 9 ≤ length out.old.buffer.now) × (many * 3 ≤ length rows.now) }
    ensures { Wrote out.old (parts (λ j. instruction_at rows.now (j * 3)) many) out.new }
{
    for k in 0..many {
        whole_instruction(out, rows, k * 3);
    }
}

pub fn code(out: &mut Out<'_>, t: &Arrays<'_>)
    ensures { Wrote out.old (code_in t.now.code.now t.now.counts.instructions) out.new }
{
    out.pair(t.counts.instructions);
    let many = few(t.counts.instructions, 4096);
    if many * 3 <= t.code.len() && out.has_room(many * 9) {
        whole_code(out, t.code, many);
    } else {
        cut_code(out, t, many);
    }
}

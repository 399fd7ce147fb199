// Guards.
ghost use Rattle.std.specs.Prelude.{◌<◌, ◌^◌};
ghost use Rattle.writing.specs.Wrote.{Wrote};
ghost use Rattle.writing.specs.Cells.{argument_in, guard_at, guards_in};

use super::Arrays;
use super::numbers::{Out, few};
use tables::place;

// An argument by its place, and the port or the value there.
fn argument(out: &mut Out<'_>, place: u32, word: u32)
    ensures { Wrote out.old (argument_in place word) out.new }
{
    if place == place::PORT {
        out.byte(0);
        out.pair(word);
    } else {
        out.byte(1);
        out.byte(place - place::INT);
        out.quad(word);
    }
}

fn guard(out: &mut Out<'_>, t: &Arrays<'_>, row: usize)
    requires { row < 2 ^ 32 }
    ensures { Wrote out.old (guard_at t.now.guard_rows.now row) out.new }
{
    let many = cells::at32(t.guard_rows, row + 1);
    out.function(cells::at32(t.guard_rows, row));
    out.byte(many);
    for k in 0..few(many, 2) {
        let place = cells::at32(t.guard_rows, row + 2 + 2 * k);
        argument(out, place, cells::at32(t.guard_rows, row + 3 + 2 * k));
    }
}

pub fn guards(out: &mut Out<'_>, t: &Arrays<'_>)
    ensures { Wrote out.old (guards_in t.now.guard_rows.now t.now.counts.guards) out.new }
{
    out.pair(t.counts.guards);
    for k in 0..few(t.counts.guards, 256) {
        guard(out, t, k * 6);
    }
}

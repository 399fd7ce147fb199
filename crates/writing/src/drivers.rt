// Drivers.
ghost use Rattle.std.specs.Prelude.{◌<◌, ◌^◌};
ghost use Rattle.writing.specs.Wrote.{Wrote};
ghost use Rattle.writing.specs.Cells.{sources_in, driver_at, drivers_in};

use super::Arrays;
use super::numbers::{Out, few};
use tables::tag;

// The source ports from a cell on.
fn sources(out: &mut Out<'_>, t: &Arrays<'_>, from: usize, many: u32)
    requires { from < 2 ^ 40 }
    ensures { Wrote out.old (sources_in t.now.driver_rows.now from many) out.new }
{
    out.byte(many);
    for k in 0..few(many, 8) {
        out.pair(cells::at32(t.driver_rows, from + k));
    }
}

fn driver(out: &mut Out<'_>, t: &Arrays<'_>, row: usize)
    requires { row < 2 ^ 32 }
    ensures { Wrote out.old (driver_at t.now.driver_rows.now row) out.new }
{
    let tag = cells::at32(t.driver_rows, row);
    let target = cells::at32(t.driver_rows, row + 1);
    out.byte(tag);
    match tag {
        tag::UPDATES => {
            out.pair(cells::at32(t.driver_rows, row + 3));
            out.pair(target);
        }
        tag::RELEASES => {
            out.pair(target);
            sources(out, t, row + 3, cells::at32(t.driver_rows, row + 2));
        }
        _ => out.pair(target),
    }
}

pub fn drivers(out: &mut Out<'_>, t: &Arrays<'_>)
    ensures { Wrote out.old (drivers_in t.now.driver_rows.now t.now.counts.drivers) out.new }
{
    out.pair(t.counts.drivers);
    for k in 0..few(t.counts.drivers, 288) {
        driver(out, t, k * 12);
    }
}

// Sensors and actuators.
ghost use Rattle.std.specs.Prelude.{◌<◌, ◌^◌};
ghost use Rattle.writing.specs.Wrote.{Wrote};
ghost use Rattle.writing.specs.Cells.{sensor_in, sensors_in, actuator_in, actuators_in};

use super::Arrays;
use super::numbers::{Out, few};

fn sensor(out: &mut Out<'_>, t: &Arrays<'_>, k: usize)
    requires { k < 65536 }
    ensures { Wrote out.old (sensor_in t.now.sensor_names.now t.now.types.now k) out.new }
{
    out.name(t.sensor_names, k * 66);
    out.byte(cells::at32(t.types, k));
    out.name(t.sensor_names, k * 66 + 33);
}

pub fn sensors(out: &mut Out<'_>, t: &Arrays<'_>)
    ensures { Wrote out.old (sensors_in t.now.sensor_names.now t.now.types.now t.now.counts.sensors) out.new }
{
    out.pair(t.counts.sensors);
    for k in 0..few(t.counts.sensors, 32) {
        sensor(out, t, k);
    }
}

// Actuator k, whose port is number k from port `from` on.
fn actuator(out: &mut Out<'_>, t: &Arrays<'_>, from: usize, k: usize)
    requires { (from < 2 ^ 32) × (k < 65536) }
    ensures { Wrote out.old (actuator_in t.now.actuator_names.now t.now.types.now t.now.starts.now from k) out.new }
{
    out.name(t.actuator_names, k * 66);
    out.byte(cells::at32(t.types, from + k));
    out.quad(cells::at32(t.starts, from + k));
    out.name(t.actuator_names, k * 66 + 33);
}

pub fn actuators(out: &mut Out<'_>, t: &Arrays<'_>)
    ensures { Wrote out.old (actuators_in t.now.actuator_names.now t.now.types.now t.now.starts.now t.now.counts.sensors t.now.counts.actuators) out.new }
{
    out.pair(t.counts.actuators);
    for k in 0..few(t.counts.actuators, 32) {
        actuator(out, t, t.counts.sensors as usize, k);
    }
}

// The sensors.
ghost use Rattle.std.specs.Prelude.{◌≤◌, ◌<◌, IfOk};
ghost use Rattle.codec.specs.Readings.{got};
ghost use Rattle.file.specs.Records.{sensor as sensor_of, sensors as sensors_of};
ghost use Rattle.fields.specs.Outcomes.{outcome};
ghost use Rattle.fields.specs.Taking.{Takes, counted};
ghost use Rattle.declarations.specs.Stores.{store_sensor};

use fields::{Cursor, put_name};
use file::Refused;

#[tactic(auto, unfolding(file::specs::Records::sensor, codec::specs::Sequences::dep, codec::specs::Sequences::dep_get, codec::specs::Views::shape, codec::specs::Views::view, codec::specs::Views::view_get, fields::specs::Taking::taken, crate::specs::Stores::store_sensor))]
fn sensor(file: &mut Cursor, k: usize, names: &mut [u8], types: &mut [u32]) -> Result<(), Refused>
    requires { k < 65536 }
    ensures { Takes sensor_of (store_sensor k) (got (names.old, types.old) file.old.rest.now) (outcome (λ u. (names.new, types.new)) result file.new.rest.now) }
{
    let name = file.name()?;
    let kind = file.kind()?;
    let getter = file.name()?;
    put_name(names, k * 66, name);
    put_name(names, k * 66 + 33, getter);
    cells::put32(types, k, kind);
    Ok(())
}

pub fn sensors(file: &mut Cursor, names: &mut [u8], types: &mut [u32]) -> Result<u32, Refused>
    ensures takes { Takes sensors_of (counted store_sensor) (got (0, (names.old, types.old)) file.old.rest.now) (outcome (λ n. (n, (names.new, types.new))) result file.new.rest.now) }
    ensures count_bound { IfOk result (λ n. n ≤ 32) }
{
    let count = file.count(32)?;
    for k in 0..count as usize {
        sensor(file, k, names, types)?;
    }
    Ok(count)
}

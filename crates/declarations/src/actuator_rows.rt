// The actuators, and what they hold at the beginning.
ghost use Rattle.std.specs.Prelude.{◌≤◌, ◌<◌, ◌^◌, IfOk};
ghost use Rattle.codec.specs.Readings.{got};
ghost use Rattle.file.specs.Records.{actuator as actuator_of, actuators as actuators_of};
ghost use Rattle.fields.specs.Outcomes.{outcome};
ghost use Rattle.fields.specs.Taking.{Takes, counted};
ghost use Rattle.declarations.specs.Stores.{store_actuator};

use fields::{Cursor, put_name};
use file::Refused;

#[tactic(auto, unfolding(codec::specs::Sequences::dep, codec::specs::Sequences::dep_get, codec::specs::Views::shape, codec::specs::Views::view, codec::specs::Views::view_get, fields::specs::Taking::taken, file::specs::Records::actuator, crate::specs::Stores::store_actuator))]
fn actuator(
    file: &mut Cursor,
    from: usize,
    k: usize,
    names: &mut [u8],
    types: &mut [u32],
    starts: &mut [u32],
) -> Result<(), Refused>
    requires { (from < 2 ^ 32) × (k < 65536) }
    ensures { Takes actuator_of (store_actuator from k) (got (record { names = names.old; types = types.old; starts = starts.old }) file.old.rest.now) (outcome (λ u. record { names = names.new; types = types.new; starts = starts.new }) result file.new.rest.now) }
{
    let name = file.name()?;
    let kind = file.kind()?;
    let start = file.value(kind)?;
    let setter = file.name()?;
    put_name(names, k * 66, name);
    put_name(names, k * 66 + 33, setter);
    cells::put32(types, from + k, kind);
    cells::put32(starts, from + k, start);
    Ok(())
}

pub fn actuators(
    file: &mut Cursor,
    from: u32,
    names: &mut [u8],
    types: &mut [u32],
    starts: &mut [u32],
) -> Result<u32, Refused>
    ensures takes { Takes actuators_of (counted (store_actuator from)) (got (0, record { names = names.old; types = types.old; starts = starts.old }) file.old.rest.now) (outcome (λ n. (n, record { names = names.new; types = types.new; starts = starts.new })) result file.new.rest.now) }
    ensures count_bound { IfOk result (λ n. n ≤ 32) }
{
    let count = file.count(32)?;
    for k in 0..count as usize {
        actuator(file, from as usize, k, names, types, starts)?;
    }
    Ok(count)
}

// The modes.
ghost use Rattle.std.specs.Prelude.{◌≤◌, ◌<◌, IfOk};
ghost use Rattle.codec.specs.Readings.{got};
ghost use Rattle.file.specs.Code.{mode as mode_of, modes as modes_of};
ghost use Rattle.fields.specs.Outcomes.{outcome};
ghost use Rattle.fields.specs.Taking.{Takes, counted};
ghost use Rattle.records.specs.Stores.{store_mode};

use fields::{Cursor, put_name};
use file::Refused;

#[tactic(auto, unfolding(codec::specs::Sequences::dep, codec::specs::Sequences::dep_get, codec::specs::Views::shape, codec::specs::Views::view, codec::specs::Views::view_get, fields::specs::Taking::taken, file::specs::Code::mode, layout::specs::Filling::stored, crate::specs::Stores::store_mode))]
fn mode(file: &mut Cursor, k: usize, names: &mut [u8], rows: &mut [u32]) -> Result<(), Refused>
    requires { k < 65536 }
    ensures { Takes mode_of (store_mode k) (got (names.old, rows.old) file.old.rest.now) (outcome (λ u. (names.new, rows.new)) result file.new.rest.now) }
{
    let name = file.name()?;
    let start = file.flag()?;
    let period = file.time()?;
    let begin = file.quad()?;
    put_name(names, k * 33, name);
    cells::put32(rows, k * 3, start);
    cells::put32(rows, k * 3 + 1, period);
    cells::put32(rows, k * 3 + 2, begin);
    Ok(())
}

pub fn modes(file: &mut Cursor, names: &mut [u8], rows: &mut [u32]) -> Result<u32, Refused>
    ensures takes { Takes modes_of (counted store_mode) (got (0, (names.old, rows.old)) file.old.rest.now) (outcome (λ n. (n, (names.new, rows.new))) result file.new.rest.now) }
    ensures count_bound { IfOk result (λ n. n ≤ 8) }
{
    let count = file.count(8)?;
    for k in 0..count as usize {
        mode(file, k, names, rows)?;
    }
    Ok(count)
}

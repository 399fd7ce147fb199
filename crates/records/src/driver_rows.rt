// The drivers.
ghost use Rattle.std.specs.Prelude.{◌≤◌, ◌<◌, ◌^◌, IfOk};
ghost use Rattle.codec.specs.Readings.{got};
ghost use Rattle.codec.specs.Numbers.{be};
ghost use Rattle.file.specs.Code.{updating, releasing, terminating, driver_rest, driver_of, driver as driver_codec, drivers as drivers_of};
ghost use Rattle.layout.specs.Plain.{driver_cells};
ghost use Rattle.layout.specs.Filling.{stored};
ghost use Rattle.fields.specs.Outcomes.{outcome};
ghost use Rattle.fields.specs.Taking.{Takes, counted};
ghost use Rattle.fields.specs.RunLaws.{RunsMany};
ghost use Rattle.records.specs.Stores.{store_source, store_driver};

use fields::Cursor;
use file::Refused;

fn sources(file: &mut Cursor, place: usize, many: u32, rows: &mut [u32]) -> Result<(), Refused>
    requires { (place < 2 ^ 40) × (many ≤ 8) }
    ensures { RunsMany (be 2) (store_source place) many (got rows.old file.old.rest.now) (outcome (λ u. rows.new) result file.new.rest.now) }
{
    for k in 0..many as usize {
        let port = file.pair()? as u32;
        cells::put32(rows, place + k, port);
    }
    Ok(())
}

#[tactic(auto, unfolding(codec::specs::Sequences::dep, codec::specs::Sequences::dep_get, codec::specs::Views::shape, codec::specs::Views::view, codec::specs::Views::view_get, fields::specs::Taking::taken, file::specs::Code::driver_rest, layout::specs::Filling::stored))]
fn update(file: &mut Cursor, place: usize, rows: &mut [u32]) -> Result<(), Refused>
    requires { place < 2 ^ 39 }
    ensures { Takes (driver_rest updating) (λ x l. stored l place (driver_cells (driver_of updating x))) (got rows.old file.old.rest.now) (outcome (λ u. rows.new) result file.new.rest.now) }
{
    let source = file.pair()? as u32;
    let target = file.pair()? as u32;
    cells::put32(rows, place, 3);
    cells::put32(rows, place + 1, target);
    cells::put32(rows, place + 2, 1);
    cells::put32(rows, place + 3, source);
    Ok(())
}

fn release(file: &mut Cursor, place: usize, rows: &mut [u32]) -> Result<(), Refused>
    requires { place < 2 ^ 39 }
    ensures { Takes (driver_rest releasing) (λ x l. stored l place (driver_cells (driver_of releasing x))) (got rows.old file.old.rest.now) (outcome (λ u. rows.new) result file.new.rest.now) }
{
    let task = file.pair()? as u32;
    let count = file.small_count(8)?;
    cells::put32(rows, place, 4);
    cells::put32(rows, place + 1, task);
    cells::put32(rows, place + 2, count);
    sources(file, place + 3, count, rows)
}

#[tactic(auto, unfolding(codec::specs::Sequences::dep, codec::specs::Sequences::dep_get, codec::specs::Views::shape, codec::specs::Views::view, codec::specs::Views::view_get, fields::specs::Taking::taken, file::specs::Code::driver_rest, layout::specs::Filling::stored))]
fn terminate(file: &mut Cursor, place: usize, rows: &mut [u32]) -> Result<(), Refused>
    requires { place < 2 ^ 39 }
    ensures { Takes (driver_rest terminating) (λ x l. stored l place (driver_cells (driver_of terminating x))) (got rows.old file.old.rest.now) (outcome (λ u. rows.new) result file.new.rest.now) }
{
    let task = file.pair()? as u32;
    cells::put32(rows, place, 5);
    cells::put32(rows, place + 1, task);
    Ok(())
}

fn driver(file: &mut Cursor, place: usize, rows: &mut [u32]) -> Result<(), Refused>
    requires { place < 2 ^ 39 }
    ensures { Takes driver_codec (λ d l. stored l place (driver_cells d)) (got rows.old file.old.rest.now) (outcome (λ u. rows.new) result file.new.rest.now) }
{
    match file.byte()? {
        3 => update(file, place, rows),
        4 => release(file, place, rows),
        5 => terminate(file, place, rows),
        _ => Err(Refused { number: 23 }),
    }
}

pub fn drivers(file: &mut Cursor, rows: &mut [u32]) -> Result<u32, Refused>
    ensures takes { Takes drivers_of (counted store_driver) (got (0, rows.old) file.old.rest.now) (outcome (λ n. (n, rows.new)) result file.new.rest.now) }
    ensures count_bound { IfOk result (λ n. n ≤ 288) }
{
    let count = file.count(288)?;
    for k in 0..count as usize {
        driver(file, k * 12, rows)?;
    }
    Ok(count)
}

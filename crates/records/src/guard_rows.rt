// The guards and their arguments.
ghost use Rattle.std.specs.Prelude.{◌≤◌, ◌<◌, ◌^◌, IfOk};
ghost use Rattle.codec.specs.Readings.{got};
ghost use Rattle.file.specs.Code.{of_port, of_value, argument_rest, argument_of, argument as argument_codec, guard as guard_of, guards as guards_of};
ghost use Rattle.layout.specs.Plain.{argument_cells, guard_cells};
ghost use Rattle.layout.specs.Filling.{stored};
ghost use Rattle.fields.specs.Outcomes.{outcome};
ghost use Rattle.fields.specs.Taking.{Takes, counted};
ghost use Rattle.fields.specs.RunLaws.{RunsMany};
ghost use Rattle.records.specs.Stores.{store_argument, store_guard};

use fields::Cursor;
use file::Refused;

#[tactic(auto, unfolding(codec::specs::Sequences::dep, codec::specs::Sequences::dep_get, codec::specs::Views::shape, codec::specs::Views::view, codec::specs::Views::view_get, fields::specs::Taking::taken, file::specs::Code::argument_rest, layout::specs::Filling::stored))]
fn port_argument(file: &mut Cursor, place: usize, rows: &mut [u32]) -> Result<(), Refused>
    requires { place < 2 ^ 41 }
    ensures { Takes (argument_rest of_port) (λ x l. stored l place (argument_cells (argument_of of_port x))) (got rows.old file.old.rest.now) (outcome (λ u. rows.new) result file.new.rest.now) }
{
    let port = file.pair()? as u32;
    cells::put32(rows, place, 0);
    cells::put32(rows, place + 1, port);
    Ok(())
}

#[tactic(auto, unfolding(codec::specs::Sequences::dep, codec::specs::Sequences::dep_get, codec::specs::Views::shape, codec::specs::Views::view, codec::specs::Views::view_get, fields::specs::Taking::taken, file::specs::Code::argument_rest, layout::specs::Filling::stored))]
fn fixed_argument(file: &mut Cursor, place: usize, rows: &mut [u32]) -> Result<(), Refused>
    requires { place < 2 ^ 41 }
    ensures { Takes (argument_rest of_value) (λ x l. stored l place (argument_cells (argument_of of_value x))) (got rows.old file.old.rest.now) (outcome (λ u. rows.new) result file.new.rest.now) }
{
    let kind = file.kind()?;
    let value = file.value(kind)?;
    cells::put32(rows, place, kind + 1);
    cells::put32(rows, place + 1, value);
    Ok(())
}

fn argument(file: &mut Cursor, place: usize, rows: &mut [u32]) -> Result<(), Refused>
    requires { place < 2 ^ 41 }
    ensures { Takes argument_codec (λ a l. stored l place (argument_cells a)) (got rows.old file.old.rest.now) (outcome (λ u. rows.new) result file.new.rest.now) }
{
    match file.byte()? {
        0 => port_argument(file, place, rows),
        1 => fixed_argument(file, place, rows),
        _ => Err(Refused { number: 23 }),
    }
}

fn arguments(file: &mut Cursor, place: usize, many: u32, rows: &mut [u32]) -> Result<(), Refused>
    requires { (place < 2 ^ 40) × (many ≤ 2) }
    ensures { RunsMany argument_codec (store_argument place) many (got rows.old file.old.rest.now) (outcome (λ u. rows.new) result file.new.rest.now) }
{
    for k in 0..many as usize {
        argument(file, place + 2 * k, rows)?;
    }
    Ok(())
}

fn guard(file: &mut Cursor, place: usize, rows: &mut [u32]) -> Result<(), Refused>
    requires { place < 2 ^ 39 }
    ensures { Takes guard_of (λ g l. stored l place (guard_cells g)) (got rows.old file.old.rest.now) (outcome (λ u. rows.new) result file.new.rest.now) }
{
    let function = file.function()?;
    let count = file.small_count(2)?;
    cells::put32(rows, place, function);
    cells::put32(rows, place + 1, count);
    arguments(file, place + 2, count, rows)
}

pub fn guards(file: &mut Cursor, rows: &mut [u32]) -> Result<u32, Refused>
    ensures takes { Takes guards_of (counted store_guard) (got (0, rows.old) file.old.rest.now) (outcome (λ n. (n, rows.new)) result file.new.rest.now) }
    ensures count_bound { IfOk result (λ n. n ≤ 256) }
{
    let count = file.count(256)?;
    for k in 0..count as usize {
        guard(file, k * 6, rows)?;
    }
    Ok(count)
}

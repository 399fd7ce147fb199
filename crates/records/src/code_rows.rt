// The code.
ghost use Rattle.std.specs.Prelude.{◌≤◌, ◌<◌, ◌^◌, IfOk};
ghost use Rattle.codec.specs.Readings.{got};
ghost use Rattle.file.specs.Code.{instruction as instruction_of, code as code_of};
ghost use Rattle.layout.specs.Plain.{instruction_cells};
ghost use Rattle.layout.specs.Filling.{stored};
ghost use Rattle.fields.specs.Outcomes.{outcome};
ghost use Rattle.fields.specs.Taking.{Takes, counted};
ghost use Rattle.records.specs.Stores.{store_instruction};

use fields::Cursor;
use file::Refused;

#[tactic(auto, unfolding(codec::specs::Sequences::dep, codec::specs::Sequences::dep_get, codec::specs::Views::shape, codec::specs::Views::view, codec::specs::Views::view_get, fields::specs::Taking::taken, file::specs::Code::instruction, file::specs::Code::triple, layout::specs::Filling::stored))]
fn instruction(file: &mut Cursor, place: usize, rows: &mut [u32]) -> Result<(), Refused>
    requires { place < 2 ^ 39 }
    ensures { Takes instruction_of (λ i l. stored l place (instruction_cells i)) (got rows.old file.old.rest.now) (outcome (λ u. rows.new) result file.new.rest.now) }
{
    let opcode = file.opcode()?;
    let first = file.first(opcode)?;
    let second = file.second(opcode)?;
    cells::put32(rows, place, opcode);
    cells::put32(rows, place + 1, first);
    cells::put32(rows, place + 2, second);
    Ok(())
}

pub fn code(file: &mut Cursor, rows: &mut [u32]) -> Result<u32, Refused>
    ensures takes { Takes code_of (counted store_instruction) (got (0, rows.old) file.old.rest.now) (outcome (λ n. (n, rows.new)) result file.new.rest.now) }
    ensures count_bound { IfOk result (λ n. n ≤ 4096) }
{
    let count = file.count(4096)?;
    for k in 0..count as usize {
        instruction(file, k * 3, rows)?;
    }
    Ok(count)
}

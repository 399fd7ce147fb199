// The tasks, with their inputs and outputs.
ghost use Rattle.std.specs.Prelude.{◌≡◌, [], ◌∷◌, ◌+◌, ◌*◌, ◌≤◌, ◌<◌, ◌^◌, replicate, IfOk};
ghost use Rattle.codec.specs.Readings.{got};
ghost use Rattle.codec.specs.Lists.{list};
ghost use Rattle.file.specs.Parts.{type};
ghost use Rattle.file.specs.Records.{output as output_of, port_count, task as task_of, tasks as tasks_of};
ghost use Rattle.layout.specs.Filling.{stored};
ghost use Rattle.fields.specs.Outcomes.{outcome};
ghost use Rattle.fields.specs.Taking.{Takes, counted};
ghost use Rattle.declarations.specs.Stores.{store_input, store_output, store_parts, first_port, store_task};

use super::mark;
use fields::{Cursor, put_name};
use file::Refused;

// The numbers of inputs and of outputs: a task's, or those of all tasks so far.
#[derive(Clone, Copy)]
struct Shares {
    pub inputs: u32,
    pub outputs: u32,
}

// The number of tasks, and the numbers of all their inputs and outputs.
#[derive(Clone, Copy)]
pub struct Behind {
    pub count: u32,
    pub inputs: u32,
    pub outputs: u32,
}

fn inputs(file: &mut Cursor, used: u32, port: usize, types: &mut [u32]) -> Result<u32, Refused>
    requires { (used ≤ 128) × (port < 2 ^ 40) }
    ensures takes { Takes (list (port_count used) type) (counted (store_input port)) (got (0, types.old) file.old.rest.now) (outcome (λ n. (n, types.new)) result file.new.rest.now) }
    ensures count_bound { IfOk result (λ n. (n ≤ 8) × (used + n ≤ 128)) }
{
    let count = file.share(used)?;
    for k in 0..count as usize {
        let kind = file.kind()?;
        cells::put32(types, port + k, kind);
    }
    Ok(count)
}

#[tactic(auto, unfolding(codec::specs::Sequences::dep, codec::specs::Sequences::dep_get, codec::specs::Views::shape, codec::specs::Views::view, codec::specs::Views::view_get, fields::specs::Taking::taken, file::specs::Records::output, crate::specs::Stores::store_output))]
fn output(
    file: &mut Cursor,
    row: usize,
    port: usize,
    k: usize,
    names: &mut [u8],
    types: &mut [u32],
    starts: &mut [u32],
) -> Result<(), Refused>
    requires { (row < 65536) × (port < 2 ^ 40) × (k < 65536) }
    ensures { Takes output_of (store_output row port k) (got (record { names = names.old; types = types.old; starts = starts.old }) file.old.rest.now) (outcome (λ u. record { names = names.new; types = types.new; starts = starts.new }) result file.new.rest.now) }
{
    let name = file.name()?;
    let kind = file.kind()?;
    let start = file.value(kind)?;
    put_name(names, (row + k) * 33, name);
    cells::put32(types, port + k, kind);
    cells::put32(starts, port + k, start);
    Ok(())
}

fn outputs(
    file: &mut Cursor,
    used: u32,
    port: usize,
    names: &mut [u8],
    types: &mut [u32],
    starts: &mut [u32],
) -> Result<u32, Refused>
    requires { (used ≤ 128) × (port < 2 ^ 39) }
    ensures takes { Takes (list (port_count used) output_of) (counted (store_output used port)) (got (0, record { names = names.old; types = types.old; starts = starts.old }) file.old.rest.now) (outcome (λ n. (n, record { names = names.new; types = types.new; starts = starts.new })) result file.new.rest.now) }
    ensures count_bound { IfOk result (λ n. (n ≤ 8) × (used + n ≤ 128)) }
{
    let count = file.share(used)?;
    for k in 0..count as usize {
        output(file, used as usize, port, k, names, types, starts)?;
    }
    Ok(count)
}

#[tactic(auto, unfolding(codec::specs::Sequences::dep, codec::specs::Sequences::dep_get, codec::specs::Views::shape, codec::specs::Views::view, codec::specs::Views::view_get, fields::specs::Taking::taken, file::specs::Records::task))]
fn task(
    file: &mut Cursor,
    k: usize,
    port: usize,
    used: Shares,
    names: &mut [u8],
    titles: &mut [u8],
    types: &mut [u32],
    starts: &mut [u32],
) -> Result<Shares, Refused>
    requires { (k < 65536) × (port < 2 ^ 38) × (used.inputs ≤ 128) × (used.outputs ≤ 128) }
    ensures takes { Takes (task_of (record { inputs = used.inputs; outputs = used.outputs })) (store_parts k port used.outputs) (got (record { names = names.old; inputs = 0; outputs = 0; ports = record { names = titles.old; types = types.old; starts = starts.old } }) file.old.rest.now) (outcome (λ n. record { names = names.new; inputs = n.inputs; outputs = n.outputs; ports = record { names = titles.new; types = types.new; starts = starts.new } }) result file.new.rest.now) }
    ensures shares_bound { IfOk result (λ n. (n.inputs ≤ 8) × (used.inputs + n.inputs ≤ 128) × (n.outputs ≤ 8) × (used.outputs + n.outputs ≤ 128)) }
{
    let name = file.name()?;
    let function = file.name()?;
    put_name(names, k * 66, name);
    put_name(names, k * 66 + 33, function);
    let inputs = inputs(file, used.inputs, port, types)?;
    let behind = port + inputs as usize;
    let outputs = outputs(file, used.outputs, behind, titles, types, starts)?;
    Ok(Shares { inputs, outputs })
}

// A task's row, and the roles of its ports.
fn enter(k: usize, port: u32, ports: Shares, roles: &mut [u32], rows: &mut [u32])
    requires { (k < 65536) × (port < 65536) × (ports.inputs < 65536) }
    ensures roles { roles.new ≡ stored (stored roles.old port (replicate ports.inputs 3)) (port + ports.inputs) (replicate ports.outputs 4) }
    ensures rows { rows.new ≡ stored rows.old (k * 4) (port ∷ ports.inputs ∷ (port + ports.inputs) ∷ ports.outputs ∷ []) }
{
    let behind = port + ports.inputs;
    mark(roles, port as usize, ports.inputs, 3);
    mark(roles, behind as usize, ports.outputs, 4);
    cells::put32(rows, k * 4, port);
    cells::put32(rows, k * 4 + 1, ports.inputs);
    cells::put32(rows, k * 4 + 2, behind);
    cells::put32(rows, k * 4 + 3, ports.outputs);
}

// Where the ports of tasks can begin: at most 64 sensors and actuators stand before them.
fn first_port(from: u32) -> u32
    ensures { (result ≡ first_port from) × (result ≤ 64) }
{
    from.min(64)
}

pub fn tasks(
    file: &mut Cursor,
    from: u32,
    names: &mut [u8],
    titles: &mut [u8],
    types: &mut [u32],
    starts: &mut [u32],
    roles: &mut [u32],
    rows: &mut [u32],
) -> Result<Behind, Refused>
    ensures takes { Takes tasks_of (counted (store_task (first_port from))) (got (0, record { names = names.old; ports = record { names = titles.old; types = types.old; starts = starts.old }; roles = roles.old; rows = rows.old; inputs = 0; outputs = 0 }) file.old.rest.now) (outcome (λ b. (b.count, record { names = names.new; ports = record { names = titles.new; types = types.new; starts = starts.new }; roles = roles.new; rows = rows.new; inputs = b.inputs; outputs = b.outputs })) result file.new.rest.now) }
    ensures count_bound { IfOk result (λ b. b.count ≤ 32) }
{
    let first = first_port(from);
    let count = file.count(32)?;
    let mut used = Shares {
        inputs: 0,
        outputs: 0,
    };
    for k in 0..count as usize {
        let port = first + used.inputs + used.outputs;
        let ports = task(file, k, port as usize, used, names, titles, types, starts)?;
        enter(k, port, ports, roles, rows);
        used.inputs += ports.inputs;
        used.outputs += ports.outputs;
    }
    Ok(Behind {
        count,
        inputs: used.inputs,
        outputs: used.outputs,
    })
}

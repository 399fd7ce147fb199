// The compiler: the text of a module to its E-code file (document 01, 'When the compiler says no').
// Promises: for any bytes and any buffer, the one file or the one refusal with its place, as the definition `compile_of` says; what is refused leaves the buffer as it was.
// Builds on the passes over a text (kept, rules, build), on its code (coding) and on its file (ecode).
#![tactic(auto)]

ghost use Rattle.std.specs.Prelude.{◌≡◌, length};
ghost use Rattle.prescribed.specs.Acceptance.{Readable};
ghost use Rattle.prescribed.specs.Compiles.{compile_of};
ghost use Rattle.prescribed.specs.Answers.{answered, buffered};
ghost use Rattle.kept.specs.Kept.{Kept};
ghost use Rattle.tdl.specs.Numbers.{numbers_in, numbers_of};
ghost use Rattle.tdl.specs.Stages.{Compiles, Unbroken};
ghost use Rattle.tdl.specs.Writings.{told_at, Declares};

use ports::Ports;
use prescribed::Compiled;
use text::Refusal;
use writing::{Arrays, Counts};

// The writer's answer as the compiler's; a refusal stands at the text's end.
fn told(answer: Result<usize, file::Refused>, end: usize) -> Compiled
    ensures { result ≡ told_at end answer }
{
    match answer {
        Ok(length) => Ok(length),
        Err(refused) => Err(Refusal {
            number: refused.number,
            at: end,
        }),
    }
}

// A text that breaks no rule, whose declarations stand in these arrays: its modes, its code and its file.
fn scheduled<'a>(
    text: &'a [u8],
    memo: &'a [usize],
    names: &'a [usize],
    rows: usize,
    ports: Ports,
    name: &'a [u8],
    sensor_names: &'a [u8],
    actuator_names: &'a [u8],
    task_names: &'a [u8],
    output_names: &'a [u8],
    types: &'a [u32],
    starts: &'a [u32],
    task_rows: &'a [u32],
    out: &mut [u8],
) -> Compiled
    requires { Unbroken text.now names.now rows × Kept text.now memo.now × Declares text.now names.now ports name.now sensor_names.now actuator_names.now task_names.now output_names.now types.now starts.now task_rows.now }
    ensures { Compiles text.now out.old result out.new }
{
    let mut code = [0u32; 12288];
    let mut guard_rows = [0u32; 1536];
    let mut driver_rows = [0u32; 3456];
    let mut acts = [0u32; 768];
    let mut mode_names = [0u8; 264];
    let mut mode_rows = [0u32; 24];
    let mut modes = [0u32; 40];
    let plan = build::schedules::planned(
        text,
        memo,
        names,
        rows,
        &mut guard_rows,
        &mut driver_rows,
        &mut acts,
        &mut mode_names,
        &mut mode_rows,
        &mut modes,
    );
    let filled = plan.filled;
    let count = coding::coded(
        &modes,
        filled.modes,
        &acts,
        ports.tasks,
        &mut code,
        &mut mode_rows,
    );
    let end = text.len();
    if count > 4096 {
        return Err(Refusal {
            number: 13,
            at: end,
        });
    }
    let instructions = count as u32;
    let counts = Counts {
        sensors: ports.sensors,
        actuators: ports.actuators,
        tasks: ports.tasks,
        drivers: filled.drivers,
        guards: filled.guards,
        modes: filled.modes,
        instructions,
    };
    let arrays = Arrays {
        counts,
        name,
        sensor_names,
        actuator_names,
        task_names,
        output_names,
        mode_names: &mode_names,
        types,
        starts,
        task_rows,
        driver_rows: &driver_rows,
        guard_rows: &guard_rows,
        mode_rows: &mode_rows,
        code: &code,
    };
    told(ecode::arrays::write(&arrays, out), end)
}

// A text that breaks no rule, by the rows of its names: its table, its code and its file.
fn translated<'a>(
    text: &'a [u8],
    memo: &'a [usize],
    names: &'a [usize],
    rows: usize,
    out: &mut [u8],
) -> Compiled
    requires { Unbroken text.now names.now rows × Kept text.now memo.now }
    ensures { Compiles text.now out.old result out.new }
{
    let mut name = [0u8; 33];
    let mut sensor_names = [0u8; 2112];
    let mut actuator_names = [0u8; 2112];
    let mut task_names = [0u8; 2112];
    let mut output_names = [0u8; 4224];
    let mut roles = [0u32; 320];
    let mut types = [0u32; 320];
    let mut starts = [0u32; 320];
    let mut task_rows = [0u32; 128];
    let ports = build::declarations::declared(
        text,
        memo,
        names,
        &mut name,
        &mut sensor_names,
        &mut actuator_names,
        &mut task_names,
        &mut output_names,
        &mut roles,
        &mut types,
        &mut starts,
        &mut task_rows,
    );
    scheduled(
        text,
        memo,
        names,
        rows,
        ports,
        &name,
        &sensor_names,
        &actuator_names,
        &task_names,
        &output_names,
        &types,
        &starts,
        &task_rows,
        out,
    )
}

// A text that is read to its end, whose items are kept. Its names stand first here: an array behind a call is cleared twice.
fn judged<'a>(text: &'a [u8], memo: &'a [usize], out: &mut [u8]) -> Compiled
    requires { Readable text.now × Kept text.now memo.now }
    ensures { Compiles text.now out.old result out.new }
{
    let mut names = [0usize; 4672];
    let rows = rules::judge(text, memo, &mut names)?;
    translated(text, memo, &names, rows, out)
}

// The passes over a text, one after the other; the first that refuses it ends them.
fn passes(text: &[u8], out: &mut [u8]) -> Compiled
    ensures { Compiles text.now out.old result out.new }
{
    if text.len() > 16384 {
        return Err(Refusal { number: 1, at: 0 });
    }
    let mut memo = [0usize; 16400];
    kept::syntax(text, &mut memo)?;
    judged(text, &memo, out)
}

// The file of a text at the front of the buffer, or the refusal.
pub fn compile(text: &[u8], out: &mut [u8]) -> Compiled
    ensures answer { result ≡ answered (compile_of text.now (length out.old)) }
    ensures buffer { out.new ≡ buffered out.old (compile_of text.now (length out.old)) }
    ensures numbers { numbers_in result ≡ numbers_of (compile_of text.now (length out.old)) }
{
    passes(text, out)
}

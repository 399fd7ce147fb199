// The answers' words.
use emachine::Machine;
use file::Refused;
use lines::saying;
use machine::Reaction;
use std::io;
use std::io::Write;

// A file, of the first bytes of a buffer.
pub(super) fn file(output: &mut impl Write, bytes: &[u8], size: usize) -> io::Result<()> {
    let mut out = super::room();
    let end = bytes.len().min(size);
    let said = saying::hex(&mut out, 0, &bytes[..end]);
    output.write_all(b"ok ")?;
    send(output, &out, said)
}

// What stands in a buffer, and an LF.
fn send(output: &mut impl Write, out: &[u8], size: usize) -> io::Result<()> {
    let end = out.len().min(size);
    output.write_all(&out[..end])?;
    output.write_all(b"\n")
}

pub(super) fn reaction(output: &mut impl Write, answer: Reaction) -> io::Result<()> {
    match answer {
        Reaction::Obeyed(steps) => writeln!(output, "ok {steps}"),
        Reaction::Idle => writeln!(output, "ok 0"),
        Reaction::Refused(number) => writeln!(output, "refused {number}"),
        Reaction::Late(task) => writeln!(output, "fault 40 {task}"),
        Reaction::Fault(number) => writeln!(output, "fault {number} -1"),
    }
}

pub(super) fn turn(
    output: &mut impl Write,
    answer: Result<Option<u32>, Refused>,
) -> io::Result<()> {
    match answer {
        Ok(Some(task)) => writeln!(output, "task {task}"),
        Ok(None) => writeln!(output, "none"),
        Err(refused) => writeln!(output, "refused {}", refused.number),
    }
}

pub(super) fn finishing(output: &mut impl Write, answer: Result<(), Refused>) -> io::Result<()> {
    match answer {
        Ok(()) => writeln!(output, "ok 0"),
        Err(refused) => writeln!(output, "refused {}", refused.number),
    }
}

// Where a machine stands, and its ports: those that have a role.
pub(super) fn look(output: &mut impl Write, machine: &Machine) -> io::Result<()> {
    let at = machine.standing;
    write!(
        output,
        "mode={} count={} remain={} stopped={} out={} waiting={} ports=",
        at.mode,
        at.clock,
        at.remaining,
        u8::from(at.stopped),
        at.out,
        at.waiting
    )?;
    let table = &machine.table;
    let many = table.roles.iter().take_while(|role| **role != 0).count();
    let mut out = [0u8; 8192];
    let end = saying::values(&mut out, 0, &table.types, &machine.ports, many);
    send(output, &out, end)
}

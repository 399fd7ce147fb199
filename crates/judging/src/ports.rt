// Ports and arguments as they are written: 4, 6 and 7.
ghost use Rattle.std.specs.Prelude.{◌≡◌};
ghost use Rattle.refusals.specs.Checks.{first};
ghost use Rattle.refusals.specs.Ports.{task_named, output_of, argument_named, dotted_rules, port_rules, argument_rules};
ghost use Rattle.judging.specs.Known.{rows_of, Right};
ghost use Rattle.judging.specs.Parted.{parted_rules};

use super::{Names, clash, name_rules, rule, use_rules};
use names::Scope;
use refusals::{Row, Verdict};
use text::Port;

// What an argument breaks, and the type that it has.
#[derive(Clone, Copy)]
pub struct Argument {
    pub verdict: Verdict,
    pub typ: usize,
}

// Task "." output, for something of a type.
fn dotted_rules(wanted: usize, task: Row, output: Row, port: Port) -> Verdict
    ensures { result ≡ first (dotted_rules wanted task output port) }
{
    name_rules(port.first)?;
    rule(6, port.first.start, task.sort == 7)?;
    rule(7, port.first.start, clash(wanted, output.typ))?;
    name_rules(port.second)?;
    rule(6, port.second.start, task.sort < 7 && output.sort == 7)
}

impl Names<'_> {
    // Task "." output as it is written, where a type is wanted; and the type that the output has.
    fn parted_rules(&self, wanted: usize, port: Port) -> Argument
        ensures { Right self.now → (result.verdict ≡ first (parted_rules self.now.text.now (rows_of self.now) wanted port)) × (result.typ ≡ (output_of self.now.text.now (rows_of self.now) (task_named self.now.text.now (rows_of self.now) port.first) port.second).typ) }
    {
        let task = meanings::task_named(self.text, self.cells, self.rows, port.first);
        let output = meanings::output_of(self.text, self.cells, self.rows, task, port.second);
        let verdict = dotted_rules(wanted, task, output, port);
        Argument {
            verdict,
            typ: output.typ,
        }
    }

    // A port, where a type is wanted.
    pub fn port_rules(&self, wanted: usize, port: Port) -> Verdict
        ensures { Right self.now → result ≡ first (port_rules self.now.text.now (rows_of self.now) wanted port) }
    {
        if port.dotted {
            return self.parted_rules(wanted, port).verdict;
        }
        let scope = Scope::Numbered(0);
        let sensor = meanings::named(self.text, self.cells, self.rows, scope, 1, port.first);
        use_rules(wanted, sensor, port.first)
    }

    // What a guard's argument breaks where a type is wanted, and the type that it has.
    pub fn argument_rules(&self, wanted: usize, port: Port) -> Argument
        ensures { Right self.now → (result.verdict ≡ first (argument_rules self.now.text.now (rows_of self.now) wanted port)) × (result.typ ≡ (argument_named self.now.text.now (rows_of self.now) port).typ) }
    {
        if port.dotted {
            return self.parted_rules(wanted, port);
        }
        let row = meanings::plain_argument(self.text, self.cells, self.rows, port.first);
        let verdict = use_rules(wanted, row, port.first);
        Argument {
            verdict,
            typ: row.typ,
        }
    }
}

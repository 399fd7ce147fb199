// What the judging pass knows at a place of the text beside the table of names, and how each item adds to it.
// Promises that it grows by each item as its definitions say, for every text and every item; their laws tie it to the module so far.
// Builds on what names mean, on the rules of activities, and on the table of names.
#![tactic(auto)]

ghost use Rattle.std.specs.Prelude.{◌≡◌};
ghost use Rattle.activities.specs.Operands.{settled as settled_type};
ghost use Rattle.noting.specs.Known.{nothing_known, one_more, begun_by, headed_by, guarded_by, operated_by, invoked_by, argued_by, updated_by, switched_by};

use activities::operands;
use text::Name;

pub mod laying;

// Whether a start mode was seen; the mode's period; the frequency of its activity; how many tasks it invokes, how many actuators it updates and
// how many activities it has; the type that a guard's operands must have, and how many are left; the task whose arguments are read, and the number of the next.
#[derive(Clone, Copy)]
pub struct Known {
    pub started: bool,
    pub period: usize,
    pub frequency: usize,
    pub calls: usize,
    pub updates: usize,
    pub activities: usize,
    pub operand: usize,
    pub left: usize,
    pub task: usize,
    pub index: usize,
}

// One more, up to a limit.
pub fn more(limit: usize, number: usize) -> usize
    ensures { result ≡ one_more limit number }
{
    if number < limit { number + 1 } else { number }
}

fn settled(typ: usize, wanted: usize) -> usize
    ensures { result ≡ settled_type typ wanted }
{
    if wanted == 2 { typ } else { wanted }
}

impl Known {
    // At the beginning of the text.
    pub fn nothing() -> Known
        ensures { result ≡ nothing_known }
    {
        Known {
            started: false,
            period: 0,
            frequency: 0,
            calls: 0,
            updates: 0,
            activities: 0,
            operand: 2,
            left: 0,
            task: 0,
            index: 0,
        }
    }

    // A mode begins.
    pub fn begun(self, s: &[u8], start: bool, digits: Name, milli: bool) -> Known
        ensures { result ≡ begun_by s.now self start digits milli }
    {
        Known {
            started: self.started || start,
            period: activities::period_of(s, digits, milli),
            calls: 0,
            updates: 0,
            activities: 0,
            ..self
        }
    }

    // An activity of this frequency.
    pub fn headed(self, s: &[u8], digits: Name) -> Known
        ensures { result ≡ headed_by s.now self digits }
    {
        let frequency = meanings::number_of(s, digits);
        Known { frequency, ..self }
    }

    // A guard of this number, whose operands come next.
    pub fn guarded(self, number: usize) -> Known
        ensures { result ≡ guarded_by self number }
    {
        Known {
            operand: operands::operand_type(number),
            left: operands::operands_of(number),
            ..self
        }
    }

    // An operand of this type: what is left open has it.
    pub fn operated(self, typ: usize) -> Known
        ensures { result ≡ operated_by self typ }
    {
        Known {
            operand: settled(typ, self.operand),
            left: self.left.saturating_sub(1),
            ..self
        }
    }

    // The task of this number is invoked; its arguments come next.
    pub fn invoked(self, task: usize) -> Known
        ensures { result ≡ invoked_by self task }
    {
        Known {
            calls: more(32, self.calls),
            activities: more(32, self.activities),
            task,
            index: 0,
            ..self
        }
    }

    // An argument of a task.
    pub fn argued(self) -> Known
        ensures { result ≡ argued_by self }
    {
        Known {
            index: more(424, self.index),
            ..self
        }
    }

    // An actuator is updated.
    pub fn updated(self) -> Known
        ensures { result ≡ updated_by self }
    {
        Known {
            updates: more(32, self.updates),
            activities: more(32, self.activities),
            ..self
        }
    }

    // A switch.
    pub fn switched(self) -> Known
        ensures { result ≡ switched_by self }
    {
        Known {
            activities: more(32, self.activities),
            ..self
        }
    }
}

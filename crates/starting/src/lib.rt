// A machine started on a table: the verdict on the table, joined to the start by it.
// Promises: the start is its definition on the sound table that the arrays hold; 30 and no machine where they hold none.
// Builds on the verdict of ecode, on emachine and on the board that both read (boards).
#![tactic(auto)]

ghost use Rattle.std.specs.Prelude.{◌≡◌};
ghost use Rattle.machine.specs.Answers.{reaction_means};
ghost use Rattle.ecode.specs.Sound.{sound_in};
ghost use Rattle.emachine.specs.Machines.{board_in};
ghost use Rattle.emachine.specs.Meanings.{start_means};
ghost use Rattle.starting.specs.Starting.{Started};

use emachine::Ticked;
use tables::Table;

// A start at a count, with the types and words of the readings: 30 table that the reader would never return; 32 readings of wrong count or type.
pub fn start<'b>(table: Table, count: u32, types: &'b [u32], words: &'b [u32]) -> Ticked
    ensures machine { Started table count types.now words.now result }
    ensures means { reaction_means result.answer ≡ start_means (sound_in table) (board_in table) count types.now words.now }
{
    let sound = ecode::sound(&table);
    emachine::start_on(table, sound, count, types, words)
}

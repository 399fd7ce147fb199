// Numbers under a test: counts, types, values, a mode's flag and period, an instruction's opcode and arguments.
ghost use Rattle.std.specs.Prelude.{◌≡◌, ◌-◌, ◌≤◌, ◌<◌, leb, ltb, IfOk};
ghost use Rattle.codec.specs.Numbers.{byte as one_byte, be};
ghost use Rattle.codec.specs.Views.{check};
ghost use Rattle.model.specs.Values.{fits_type};
ghost use Rattle.file.specs.Parts.{count as count_of, type, value as value_of};
ghost use Rattle.file.specs.Records.{port_count};
ghost use Rattle.file.specs.Code.{good_time, fits_form, forms_of, word as word_of};
ghost use Rattle.fields.specs.Outcomes.{Reads, fits_share};

use super::{Cursor, checked};
use file::Refused;

// What stands in place of an argument that an instruction does not have.
const NO_ARGUMENT: u32 = 4294967295;

impl<'a> Cursor<'a> {
    // A count of two bytes, and of one.
    pub fn count(&mut self, room: u32) -> Result<u32, Refused>
        ensures reads { Reads (count_of 2 room) self.old.rest.now result self.new.rest.now }
        ensures value_le_room { IfOk result (λ v. v ≤ room) }
    {
        let count = self.pair()? as u32;
        checked(count, count <= room, 22)
    }

    pub fn small_count(&mut self, room: u32) -> Result<u32, Refused>
        ensures reads { Reads (count_of 1 room) self.old.rest.now result self.new.rest.now }
        ensures value_le_room { IfOk result (λ v. v ≤ room) }
    {
        let count = self.byte()? as u32;
        checked(count, count <= room, 22)
    }

    // A task's count of inputs, or of outputs, where the tasks before have as many as are used.
    pub fn share(&mut self, used: u32) -> Result<u32, Refused>
        ensures reads { Reads (port_count used) self.old.rest.now result self.new.rest.now }
        ensures value_bound { IfOk result (λ v. (v ≤ 8) × (v ≤ 128 - used)) }
    {
        let count = self.byte()? as u32;
        checked(count, fits_share(used, count), 22)
    }

    pub fn kind(&mut self) -> Result<u32, Refused>
        ensures reads { Reads type self.old.rest.now result self.new.rest.now }
        ensures value_bound { IfOk result (λ v. v < 2) }
    {
        let kind = self.byte()? as u32;
        checked(kind, kind < 2, 23)
    }

    pub fn value(&mut self, kind: u32) -> Result<u32, Refused>
        ensures { Reads (value_of kind) self.old.rest.now result self.new.rest.now }
    {
        let value = self.quad()?;
        checked(value, fits_kind(kind, value), 23)
    }

    // Whether a mode is the start mode: 0 or 1.
    pub fn flag(&mut self) -> Result<u32, Refused>
        ensures { Reads (check one_byte 23 (λ start. leb start 1)) self.old.rest.now result self.new.rest.now }
    {
        let start = self.byte()? as u32;
        checked(start, start <= 1, 23)
    }

    // A period.
    pub fn time(&mut self) -> Result<u32, Refused>
        ensures { Reads (check (be 4) 23 good_time) self.old.rest.now result self.new.rest.now }
    {
        let time = self.quad()?;
        checked(time, is_time(time), 23)
    }

    pub fn opcode(&mut self) -> Result<u32, Refused>
        ensures { Reads (check one_byte 23 (λ opcode. ltb opcode 8)) self.old.rest.now result self.new.rest.now }
    {
        let opcode = self.byte()? as u32;
        checked(opcode, opcode < 8, 23)
    }

    // The arguments of an instruction, by its opcode.
    pub fn first(&mut self, opcode: u32) -> Result<u32, Refused>
        ensures { Reads (word_of (forms_of opcode).0) self.old.rest.now result self.new.rest.now }
    {
        let argument = self.quad()?;
        checked(argument, fits_first(opcode, argument), 23)
    }

    pub fn second(&mut self, opcode: u32) -> Result<u32, Refused>
        ensures { Reads (word_of (forms_of opcode).1) self.old.rest.now result self.new.rest.now }
    {
        let argument = self.quad()?;
        checked(argument, fits_second(opcode, argument), 23)
    }
}

fn fits_share(used: u32, count: u32) -> bool
    ensures { result ≡ fits_share used count }
{
    count <= 8 && used <= 128 - count
}

fn fits_kind(kind: u32, word: u32) -> bool
    ensures { result ≡ fits_type kind word }
{
    kind != 1 || word <= 1
}

fn is_time(number: u32) -> bool
    ensures { result ≡ good_time number }
{
    (1..=2147483647).contains(&number)
}

#[tactic(auto, using(crate::specs::Forms::first_forms))]
fn fits_first(opcode: u32, argument: u32) -> bool
    ensures { result ≡ fits_form (forms_of opcode).0 argument }
{
    match opcode {
        0 => argument <= 2,
        1..=5 | 7 => true,
        _ => argument == NO_ARGUMENT,
    }
}

fn fits_second(opcode: u32, argument: u32) -> bool
    ensures { result ≡ fits_form (forms_of opcode).1 argument }
{
    match opcode {
        1 => is_time(argument),
        4 => true,
        _ => argument == NO_ARGUMENT,
    }
}

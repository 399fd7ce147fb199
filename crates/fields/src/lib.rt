// The fields of a file's records, read one after the other: numbers, counts, types, values, arguments and names.
// Promises: each reads what its codec reads at the front of the bytes that are left, or gives the number of its refusal.
// Builds on the codecs of file and on the scanner.
#![tactic(auto)]

ghost use Rattle.std.specs.Prelude.{◌≡◌, Ok, Err, if◌then◌else◌};
ghost use Rattle.codec.specs.Numbers.{byte as one_byte, be};
ghost use Rattle.fields.specs.Outcomes.{Reads};

mod names;
mod tested;

use file::Refused;
pub use names::put_name;

// The bytes of a file that are still to be read.
#[derive(Drop)]
pub struct Cursor<'a> {
    pub rest: &'a [u8],
}

#[tactic(auto, using(crate::specs::NumberLaws::number_laws))]
impl<'a> Cursor<'a> {
    pub fn byte(&mut self) -> Result<u8, Refused>
        ensures { Reads one_byte self.old.rest.now result self.new.rest.now }
    {
        match self.rest {
            [value, rest @ ..] => {
                self.rest = rest;
                Ok(*value)
            }
            [] => Err(Refused { number: 22 }),
        }
    }

    // A number of two bytes, and of four, the highest first.
    pub fn pair(&mut self) -> Result<u16, Refused>
        ensures { Reads (be 2) self.old.rest.now result self.new.rest.now }
    {
        match self.rest {
            [high, low, rest @ ..] => {
                self.rest = rest;
                Ok(u16::from_be_bytes([*high, *low]))
            }
            _ => Err(Refused { number: 22 }),
        }
    }

    pub fn quad(&mut self) -> Result<u32, Refused>
        ensures { Reads (be 4) self.old.rest.now result self.new.rest.now }
    {
        match self.rest {
            [highest, high, low, lowest, rest @ ..] => {
                self.rest = rest;
                Ok(u32::from_be_bytes([*highest, *high, *low, *lowest]))
            }
            _ => Err(Refused { number: 22 }),
        }
    }
}

// A number that passes its test, or a refusal.
fn checked<T: Copy>(value: T, fine: bool, number: u8) -> Result<T, Refused>
    ensures { result ≡ (if fine then Ok value else Err (record { number = number })) }
{
    if fine {
        Ok(value)
    } else {
        Err(Refused { number })
    }
}

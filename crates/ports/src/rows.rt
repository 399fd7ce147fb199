// Names in rows of 33 cells, a length and up to 32 bytes; and the cells of a port.
ghost use Rattle.std.specs.Prelude.{◌≡◌, ◌<◌, ◌≤◌, ◌^◌, length};
ghost use Rattle.names.specs.Tables.{rows_in};
ghost use Rattle.names.specs.Index.{Indexed};
ghost use Rattle.refusals.specs.Values.{type_named, literal_word};
ghost use Rattle.layout.specs.Filling.{stored};
ghost use Rattle.ports.specs.Boards.{word, short_name, name_row, name_put, names_put, role_of, board_in, port_put, SameArrays};

use super::Arrays;
use heads::numbers::clamp;
use heads::stores::store;
use heads::titles::letters;
use text::{Literal, Name};

// ---- names

// The bytes of a name that stand in its row.
fn short(s: &[u8], name: Name) -> &[u8]
    ensures name { result.now ≡ short_name s.now name }
    ensures few { length result.now ≤ 32 }
{
    let word = letters(s, name);
    &word[..word.len().min(32)]
}

// A name, to the row that begins at a place.
pub(super) fn name_row(s: &[u8], name: Name, place: usize, names: &mut [u8])
    requires { place < 2 ^ 40 }
    ensures { names.new ≡ stored names.old place (name_row s.now name) }
{
    let word = short(s, name);
    cells::put8(names, place, word.len() as u8);
    store(names, place + 1, word);
}

// A name, to row k.
pub(super) fn one(s: &[u8], k: u32, name: Name, names: &mut [u8])
    ensures { names.new ≡ name_put s.now k name names.old }
{
    name_row(s, name, k as usize * 33, names);
}

// The two names of record k.
pub(super) fn two(s: &[u8], k: u32, first: Name, second: Name, names: &mut [u8])
    ensures { names.new ≡ names_put s.now k first second names.old }
{
    let row = k as usize * 66;
    name_row(s, first, row, names);
    name_row(s, second, row + 33, names);
}

// ---- ports

// What a port is.
#[derive(Clone, Copy)]
pub(super) enum Role {
    Sensor,
    Actuator,
    Input,
    Output,
}

impl Role {
    fn number(self) -> u32
        ensures { result ≡ role_of self }
    {
        match self {
            Role::Sensor => 1,
            Role::Actuator => 2,
            Role::Input => 3,
            Role::Output => 4,
        }
    }
}

// The type that a name stands for.
pub(super) fn type_word(s: &[u8], typ: Name) -> u32
    ensures { result ≡ type_named s.now typ }
{
    clamp(meanings::type_named(s, typ))
}

// The word of a value.
pub(super) fn start_word(s: &[u8], cells: &[usize], n: usize, value: Literal) -> u32
    ensures { Indexed s.now cells.now → result ≡ word (literal_word s.now (rows_in cells.now n) value) }
{
    clamp(meanings::literal_word(s, cells, n, value))
}

// The next port.
pub(super) fn port(role: Role, typ: u32, start: u32, arrays: &mut Arrays)
    ensures done { board_in arrays.new ≡ port_put (role_of role) typ start (board_in arrays.old) }
    ensures same { SameArrays arrays.new arrays.old }
{
    let at = arrays.counts.ports as usize;
    cells::put32(arrays.roles, at, role.number());
    cells::put32(arrays.types, at, typ);
    cells::put32(arrays.starts, at, start);
}

// What an item declares.
ghost use Rattle.std.specs.Prelude.{◌≡◌};
ghost use Rattle.refusals.specs.Names.{row_of};
ghost use Rattle.refusals.specs.Values.{type_named};
ghost use Rattle.refusals.specs.Declarations.{ports_in};
ghost use Rattle.names.specs.Tables.{rows_in};
ghost use Rattle.names.specs.Index.{Indexed};

use names::Sought;
use refusals::Row;
use text::Name;

// What an item declares: nothing, or one name.
#[derive(Clone, Copy)]
pub enum Declaration {
    Nothing,
    One(Row),
}

// A name of this sort in a scope, with its type and its value.
pub fn row_of(name: Name, scope: usize, sort: usize, typ: usize, value: usize) -> Row
    ensures { result ≡ row_of name scope sort typ value }
{
    Row {
        start: name.start,
        end: name.end,
        scope,
        sort,
        typ,
        value,
    }
}

// A port of this type's name, in a scope.
pub fn port_row(
    s: &[u8],
    cells: &[usize],
    n: usize,
    typ: Name,
    name: Name,
    scope: usize,
    sort: usize,
) -> Row
    ensures { Indexed s.now cells.now → result ≡ row_of name scope sort (type_named s.now typ) (ports_in (rows_in cells.now n)) }
{
    let number = names::count(cells, n, Sought::Port);
    row_of(name, scope, sort, super::type_named(s, typ), number)
}

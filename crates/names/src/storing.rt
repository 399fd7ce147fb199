// One row more: its numbers, the end of its chain, and what it adds to the counts.
ghost use Rattle.std.specs.Prelude.{◌≡◌, ◌+◌, ◌-◌, ◌*◌, ◌<◌};
ghost use Rattle.names.specs.Tables.{room_in};
ghost use Rattle.names.specs.Index.{with_row, link_place, kind_place, first_by, tallied};

use super::{Sought, hashing};
use refusals::Row;

// Where the link to the row behind the last of a chain stands: in that row, or with no row in the chain at its head.
fn link_place(chain: usize, last: usize) -> usize
    requires { (chain < 512) × (last * 8 + 1288 < 18446744073709551616) }
    ensures { (result ≡ link_place chain last) × (result < last * 8 + 1280) }
{
    if last == 0 {
        chain + 256
    } else {
        (last - 1) * 8 + 1280 + 6
    }
}

// The row behind the first n, as the last of its chain.
pub(crate) fn enter(s: &[u8], cells: &mut [usize], n: usize, row: Row)
    requires { n < room_in cells.old }
    ensures { cells.new ≡ with_row s.now cells.old n row }
{
    let key = hashing::key_of(scan::part(s, row.start, row.end));
    let chain = hashing::chain_of(row.scope, key);
    let last = cells[chain + 768].min(n);
    let place = link_place(chain, last);
    let first = n * 8 + 1280;
    cells[first..first + 8].copy_from_slice(&[
        row.start, row.end, row.scope, row.sort, row.typ, row.value, 0, key,
    ]);
    cells[place] = n + 1;
    cells[chain + 768] = n + 1;
    cells[0] = n + 1;
}

// Where a row counts: among the ports or beside them.
fn kind_place(row: Row) -> usize
    ensures { (result ≡ kind_place row) × (result < 3) }
{
    if Sought::Port.has(row) { 1 } else { 2 }
}

fn first_by(known: usize, new: usize) -> usize
    ensures { result ≡ first_by known new }
{
    if known == 0 { new } else { known.min(new) }
}

// The row counted, behind n others. Inputs and outputs count apart from each other and from all sorts before them.
pub(crate) fn tally(cells: &mut [usize], n: usize, row: Row)
    requires { n < room_in cells.old }
    ensures { cells.new ≡ tallied cells.old n row }
{
    let kind = kind_place(row);
    let scope = row.scope.min(33);
    let sort = row.sort.min(7);
    let group = sort.saturating_sub(4);
    let kinds = cells[kind].min(n);
    let sorts = cells[sort + 8].min(n);
    let scopes = cells[scope * 4 + group + 16].min(n);
    let first = first_by(cells[scope + 152], n + 1);
    cells[kind] = kinds + 1;
    cells[sort + 8] = sorts + 1;
    cells[scope * 4 + group + 16] = scopes + 1;
    cells[scope + 152] = first;
}

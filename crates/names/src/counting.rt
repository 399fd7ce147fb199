// Rows counted, and their types: from what the index keeps, or row by row.
ghost use Rattle.std.specs.Prelude.{◌≡◌, ℕ, ◌<◌, false, List, ◌≢◌};
ghost use Rattle.refusals.specs.Names.{count, is_sort, is_port, is_port_of};
ghost use Rattle.names.specs.Tables.{row_at, rows_in, scope_of, is_of};
ghost use Rattle.names.specs.TablesLaws.{type_up};
ghost use Rattle.names.specs.Index.{Indexed};

use super::{Scope, Sought, cell, row};

// How many of the first n rows there are of those, row by row: mostly the index has their number.
#[cold]
#[inline(never)]
fn counted(cells: &[usize], n: usize, sought: Sought) -> usize
    ensures { result ≡ count (is_of sought) (rows_in cells.now n) }
{
    let mut found = 0;
    for k in 0..n {
        if sought.has(row(cells, k)) {
            found += 1;
        }
    }
    found
}

// Those of a sort.
#[inline(always)]
pub fn of_sort(cells: &[usize], n: usize, sort: usize) -> usize
    ensures { (s : List ℕ) → Indexed s cells.now → result ≡ count (is_sort sort) (rows_in cells.now n) }
{
    if n == cell(cells, 0) && sort < 7 {
        cell(cells, sort + 8)
    } else {
        counted(cells, n, Sought::Sort(sort))
    }
}

// The ports.
#[inline(always)]
pub fn of_ports(cells: &[usize], n: usize) -> usize
    ensures { (s : List ℕ) → Indexed s cells.now → result ≡ count is_port (rows_in cells.now n) }
{
    if n == cell(cells, 0) {
        cell(cells, 1)
    } else {
        counted(cells, n, Sought::Port)
    }
}

// The inputs or the outputs of a scope.
#[inline(always)]
pub fn of_scope(cells: &[usize], n: usize, scope: Scope, sort: usize) -> usize
    ensures { (s : List ℕ) → Indexed s cells.now → result ≡ count (is_port_of (scope_of scope) sort) (rows_in cells.now n) }
{
    match scope.number() {
        Some(number) if n == cell(cells, 0) && number < 33 && 4 < sort && sort < 7 => {
            cell(cells, number * 4 + (sort - 4) + 16)
        }
        _ => counted(cells, n, Sought::PortOf { scope, sort }),
    }
}

// A place before which none of the first n rows is of a scope.
fn first_in(cells: &[usize], n: usize, scope: Scope) -> usize
    ensures { (s : List ℕ) → Indexed s cells.now → (k : ℕ) → k < n → k < result → (row_at cells.now k).scope ≢ scope_of scope }
{
    match scope.number() {
        Some(number) if n == cell(cells, 0) && number < 33 => {
            cell(cells, number + 152).saturating_sub(1)
        }
        _ => 0,
    }
}

// A place before which none of the first n rows is one of those.
pub fn first_of(cells: &[usize], n: usize, sought: Sought) -> usize
    ensures { (s : List ℕ) → Indexed s cells.now → (k : ℕ) → k < n → k < result → is_of sought (row_at cells.now k) ≡ false }
{
    match sought {
        Sought::PortOf { scope, sort: _ } => first_in(cells, n, scope),
        _ => 0,
    }
}

// The type of the one at place i of those from a place on.
pub fn typed_from(cells: &[usize], n: usize, sought: Sought, i: usize, from: usize) -> usize
    ensures { result ≡ type_up (is_of sought) cells.now from n i }
{
    let mut left = i;
    for k in from..n {
        let this = row(cells, k);
        if sought.has(this) {
            if left == 0 {
                return this.typ;
            }
            left -= 1;
        }
    }
    2
}

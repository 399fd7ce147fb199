// The table of declared names: an index and rows of eight numbers each, in one array that is lent.
// Promises that every answer is what the definitions say of the rows that stand in the array, where its index is right, and that each declaration keeps it right.
// Builds on the laws of parts of a text, and on what a row is in the rules.
#![tactic(auto)]

ghost use Rattle.std.specs.Prelude.{◌≡◌, ℕ, ◌+◌, ◌<◌, ◌≤◌, true, List, length, IfSome, slice_index, slice_index_or};
ghost use Rattle.std.proofs.Math.Seq.{slice};
ghost use Rattle.model.specs.Bytes.{same};
ghost use Rattle.refusals.specs.Names.{unknown as unknown_row, is_row, find as find_row, no_type, count as count_of, types};
ghost use Rattle.names.specs.Tables.{row_at, rows_in, room_in, scope_of, NumberOf, is_of};
ghost use Rattle.names.specs.Index.{key_of, word_at, chain_of, indexed, head_in, marked_by, Indexed, Declared};
ghost use Rattle.names.specs.Walking.{past, marked_first, Placed};

use refusals::Row;

mod counting;
mod hashing;
mod storing;

// A scope by its number, or that of a task's ports by the task's.
#[derive(Clone, Copy)]
pub enum Scope {
    Numbered(usize),
    OfTask(usize),
}

impl Scope {
    // The number of a scope, where it is one that a row can have.
    fn number(self) -> Option<usize>
        ensures { NumberOf self result }
    {
        match self {
            Scope::Numbered(number) => Some(number),
            Scope::OfTask(task) => task.checked_add(1),
        }
    }
}

// Which rows are counted: those of a sort; the ports; those of a sort among the ports of a scope. A sort is a number, as in the rows of refusals.
#[derive(Clone, Copy)]
pub enum Sought {
    Sort(usize),
    Port,
    PortOf { scope: Scope, sort: usize },
}

impl Sought {
    // Whether a row is one of those that are counted.
    fn has(self, row: Row) -> bool
        ensures { result ≡ is_of self row }
    {
        match self {
            Sought::Sort(sort) => row.sort == sort,
            Sought::Port => matches!(row.sort, 1 | 2 | 5 | 6),
            Sought::PortOf { scope, sort } => {
                scope.number() == Some(row.scope) && row.sort == sort
            }
        }
    }
}

// Where the index finds a name: at a row, nowhere, or it does not tell.
#[derive(Clone, Copy)]
enum Lookup {
    At(usize),
    Nowhere,
    Untold,
}

// The number at a place of the array, 0 behind its end.
fn cell(cells: &[usize], i: usize) -> usize
    ensures { result ≡ slice_index cells.now i }
{
    cells.get(i).copied().unwrap_or(0)
}

// The row at a place where the array may end within it, or before it.
fn ragged(cells: &[usize], k: usize) -> Row
    ensures { result ≡ row_at cells.now k }
{
    if cells.len() <= k {
        return Row {
            start: 0,
            end: 0,
            scope: 0,
            sort: 0,
            typ: 0,
            value: 0,
        };
    }
    let first = k * 8 + 1280;
    Row {
        start: cell(cells, first),
        end: cell(cells, first + 1),
        scope: cell(cells, first + 2),
        sort: cell(cells, first + 3),
        typ: cell(cells, first + 4),
        value: cell(cells, first + 5),
    }
}

// How many rows the array has room for.
fn room(cells: &[usize]) -> usize
    ensures { result ≡ room_in cells.now }
{
    cells.len().saturating_sub(1280) / 8
}

// The row at a place where the array does not end within it.
fn whole(cells: &[usize], k: usize) -> Row
    requires { k < room_in cells.now }
    ensures { result ≡ row_at cells.now k }
{
    let first = k * 8 + 1280;
    Row {
        start: cells[first],
        end: cells[first + 1],
        scope: cells[first + 2],
        sort: cells[first + 3],
        typ: cells[first + 4],
        value: cells[first + 5],
    }
}

// The row at a place of the table.
pub fn row(cells: &[usize], k: usize) -> Row
    ensures { result ≡ row_at cells.now k }
{
    if k < room(cells) {
        whole(cells, k)
    } else {
        ragged(cells, k)
    }
}

// The row of a name that means nothing: the definitions (`unknown`) have such a row in place of none.
pub fn unknown() -> Row
    ensures { result ≡ unknown_row }
{
    Row {
        start: 0,
        end: 0,
        scope: 0,
        sort: 7,
        typ: 2,
        value: 16384,
    }
}

// Whether two parts of the text are byte for byte the same.
pub fn same_parts(s: &[u8], start: usize, end: usize, from: usize, to: usize) -> bool
    ensures { result ≡ same (slice start end s.now) (slice from to s.now) }
{
    scan::same(s, start, end, scan::part(s, from, to))
}

// Whether a row is of this scope and has this name.
fn is_row(s: &[u8], row: Row, scope: usize, word: &[u8]) -> bool
    ensures { result ≡ is_row s.now scope word.now row }
{
    row.scope == scope && scan::same(s, row.start, row.end, word)
}

// What a name means, where all rows are gone through: mostly the index tells.
#[cold]
#[inline(never)]
fn searched(s: &[u8], cells: &[usize], n: usize, scope: usize, word: &[u8]) -> Row
    ensures { result ≡ find_row s.now (rows_in cells.now n) scope word.now }
{
    for k in 0..n {
        let this = row(cells, k);
        if is_row(s, this, scope, word) {
            return this;
        }
    }
    unknown()
}

// Whether the row at a place is of this scope and has this key.
fn is_marked(cells: &[usize], k: usize, scope: usize, key: usize) -> bool
    requires { k < room_in cells.now }
    ensures { result ≡ marked_by cells.now k scope key }
{
    let first = k * 8 + 1280;
    cells[first + 7] == key && cells[first + 2] == scope
}

// The place of the first row of its chain, from head on and among the first n, that is of this scope and has this key.
fn chained(cells: &[usize], n: usize, scope: usize, key: usize, head: usize) -> Option<usize>
    requires { (4672 ≤ length cells.now) × (n ≤ 424) × (0 < head) }
    ensures within { IfSome result (λ k. k < n) }
    ensures first { (s : List ℕ) (word : List ℕ) → Indexed s cells.now → n ≤ indexed cells.now → key ≡ key_of word → head ≡ head_in cells.now (chain_of scope word) → past result ≡ marked_first s scope word cells.now n }
{
    let mut link = head;
    while link <= n {
        let k = link - 1;
        if is_marked(cells, k, scope, key) {
            return Some(k);
        }
        let next = cells[k * 8 + 1280 + 6];
        if next <= link {
            return None;
        }
        link = next;
    }
    None
}

// Whether the row at a place has this name, where their keys are equal: with at most eight letters their length tells.
fn is_named(s: &[u8], cells: &[usize], k: usize, word: &[u8]) -> bool
    requires { k < room_in cells.now }
    ensures { result ≡ true → key_of (word_at s.now cells.now k) ≡ key_of word.now → same (word_at s.now cells.now k) word.now ≡ true }
{
    let first = k * 8 + 1280;
    let name = scan::part(s, cells[first], cells[first + 1]);
    name.len() == word.len()
        && (word.len() <= 8 || scan::same(s, cells[first], cells[first + 1], word))
}

// Where the index finds the first of the first n rows that is of a scope and has this name.
#[inline(never)]
fn place(s: &[u8], cells: &[usize], n: usize, scope: usize, word: &[u8]) -> Lookup
    ensures { Placed s.now cells.now n scope word.now result }
{
    if cells.len() < 4672 || 424 < n || cells[0] < n || word.is_empty() {
        return Lookup::Untold;
    }
    let key = hashing::key_of(word);
    let head = cells[hashing::chain_of(scope, key) + 256];
    if head == 0 {
        return Lookup::Nowhere;
    }
    match chained(cells, n, scope, key, head) {
        None => Lookup::Nowhere,
        Some(k) if is_named(s, cells, k, word) => Lookup::At(k),
        Some(_) => Lookup::Untold,
    }
}

// What the name that stands from start up to end means in the scope of a number, among the first n rows.
#[inline(always)]
pub fn found(s: &[u8], cells: &[usize], n: usize, scope: usize, start: usize, end: usize) -> Row
    ensures { Indexed s.now cells.now → result ≡ find_row s.now (rows_in cells.now n) scope (slice start end s.now) }
{
    let word = scan::part(s, start, end);
    match place(s, cells, n, scope, word) {
        Lookup::At(k) => whole(cells, k),
        Lookup::Nowhere => unknown(),
        Lookup::Untold => searched(s, cells, n, scope, word),
    }
}

// What the name that stands from start up to end means in a scope, among the first n rows.
#[inline(always)]
pub fn find(s: &[u8], cells: &[usize], n: usize, scope: Scope, start: usize, end: usize) -> Row
    ensures { Indexed s.now cells.now → result ≡ find_row s.now (rows_in cells.now n) (scope_of scope) (slice start end s.now) }
{
    match scope.number() {
        Some(number) => found(s, cells, n, number, start, end),
        None => unknown(),
    }
}

// How many of the first n rows there are of those.
#[inline(always)]
pub fn count(cells: &[usize], n: usize, sought: Sought) -> usize
    ensures { (s : List ℕ) → Indexed s cells.now → result ≡ count_of (is_of sought) (rows_in cells.now n) }
{
    match sought {
        Sought::Sort(sort) => counting::of_sort(cells, n, sort),
        Sought::Port => counting::of_ports(cells, n),
        Sought::PortOf { scope, sort } => counting::of_scope(cells, n, scope, sort),
    }
}

// The type of the one at place i of those among the first n rows.
pub fn type_of(cells: &[usize], n: usize, sought: Sought, i: usize) -> usize
    ensures { (s : List ℕ) → Indexed s cells.now → result ≡ slice_index_or (types (is_of sought) (rows_in cells.now n)) i no_type }
{
    let from = counting::first_of(cells, n, sought);
    counting::typed_from(cells, n, sought, i, from)
}

// One row more, behind the first n, where the array has room for it; the number of rows then.
pub fn declare(s: &[u8], cells: &mut [usize], n: usize, row: Row) -> usize
    ensures { Declared s.now cells.old n row cells.new result }
{
    if room(cells) <= n {
        return n;
    }
    storing::enter(s, cells, n, row);
    storing::tally(cells, n, row);
    n + 1
}

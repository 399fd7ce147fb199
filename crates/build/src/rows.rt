// What a walk over rows asks: how many an array holds, and of each whether it is the next, whether its item is the last, and how many names it declares.
ghost use Rattle.std.specs.Prelude.{◌≡◌, true, false, List, ℕ, ◌-◌, ◌*◌, ◌≤◌, get_or, length};
ghost use Rattle.kept.specs.Rows.{fields_in, item_of};
ghost use Rattle.build.specs.Walks.{declaring as declaring_of, over_by};

// How many rows of sixteen numbers an array holds behind its first sixteen: not more than its first number says, nor than it has room for.
pub(super) fn held(memo: &[usize]) -> usize
    ensures { (result ≤ get_or memo.now 0 0) × (result * 16 ≤ length memo.now - 16) }
{
    if memo.len() < 16 {
        return 0;
    }
    memo[0].min((memo.len() - 16) / 16)
}

// Whether a row is of a state and a place.
pub(super) fn is_of(row: &[usize], state: usize, at: usize) -> bool
    requires { length row.now ≡ 16 }
    ensures { (result ≡ true → (get_or row.now 1 0 ≡ state) × (get_or row.now 2 0 ≡ at)) × (result ≡ false → get_or row.now 1 0 ≡ state → get_or row.now 2 0 ≡ at → ⊥) }
{
    row[1] == state && row[2] == at
}

// Whether a walk ends at a place with the item of a row of this kind: it does not go on ahead, or the item is the end of the text or a refusal.
pub(super) fn over(kind: usize, next: usize, at: usize) -> bool
    ensures { (row : List ℕ) → get_or row 0 0 ≡ kind → result ≡ over_by (item_of (fields_in row)) at next }
{
    next <= at || 18 < kind
}

// A mode's begin declares one name, and so does each kind from a constant to an output.
pub(super) fn declaring(kind: usize) -> usize
    ensures { (row : List ℕ) → get_or row 0 0 ≡ kind → result ≡ declaring_of (item_of (fields_in row)) }
{
    // A kind is a number here, as the lent array keeps it (kept/specs/Kinds).
    match kind {
        2..=7 | 9 => 1,
        _ => 0,
    }
}

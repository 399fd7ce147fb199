// The first pass: refusals 2 and 3, and the items kept.
ghost use Rattle.std.specs.Prelude.{◌+◌, ◌-◌, ◌/◌, ◌≤◌, ◌<◌, min, length, get_or, ◌≡◌};
ghost use Rattle.text.specs.Items.{syntax_of};
ghost use Rattle.items.specs.Answers.{answered};
ghost use Rattle.kept.specs.Kept.{Kept, Keeps};
ghost use Rattle.kept.specs.Passes.{Walked, end_of};

use super::storing;
use text::Refusal;

// What a pass says: its answer, and how many rows it has laid.
#[derive(Clone, Copy)]
pub(crate) struct Passed {
    pub(crate) answer: Result<(), Refusal>,
    pub(crate) rows: usize,
}

// No row.
fn clear(memo: &mut [usize])
    ensures { get_or memo.new 0 0 ≡ 0 }
{
    if !memo.is_empty() {
        memo[0] = 0;
    }
}

// The answer of a pass that a row ends.
fn ending(row: &[usize]) -> Result<(), Refusal>
    requires { length row.now ≡ 16 }
    ensures { 18 < get_or row.now 0 0 → result ≡ end_of row.now }
{
    if 19 < row[0] {
        return Err(Refusal {
            number: (row[7] % 256) as u8,
            at: row[8],
        });
    }
    Ok(())
}

// The items from a place on, in a state by its number, at most as many as there are turns: each kept in a row of its own, and those beyond the room in the last row.
pub(crate) fn walk(s: &[u8], rows: &mut [usize], state: usize, place: usize, turns: usize) -> Passed
    requires { 16 ≤ length rows.old }
    ensures { Walked s.now state place turns rows.new result.answer result.rows }
{
    let mut many = 0;
    let mut number = state;
    let mut at = place;
    for _ in 0..turns {
        let first = many * 16;
        let row = &mut rows[first..first + 16];
        let turn = storing::read(s, number, at, row);
        if 18 < turn.kind {
            return Passed {
                answer: ending(row),
                rows: many + 1,
            };
        }
        number = turn.number;
        at = turn.next;
        many = (many + 1).min((rows.len() - 16) / 16);
    }
    Passed {
        answer: Ok(()),
        rows: many,
    }
}

// The leftmost 2 or 3 of a text; the array keeps its items in order, as many as it has room for, and in the last row the last item.
pub fn syntax(s: &[u8], memo: &mut [usize]) -> Result<(), Refusal>
    ensures answer { result ≡ answered (syntax_of s.now) }
    ensures kept { Kept s.now memo.new }
    ensures items { Keeps s.now memo.new }
{
    let turns = s.len() + 1;
    if memo.len() < 32 {
        clear(memo);
        return walk(s, &mut [0usize; 16], 0, 0, turns).answer;
    }
    let passed = walk(s, &mut memo[16..], 0, 0, turns);
    memo[0] = passed.rows;
    passed.answer
}

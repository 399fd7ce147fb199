// Mode: its head, and the head of an activity in it.
ghost use Rattle.std.specs.Prelude.{◌≡◌};
ghost use Rattle.productions.specs.Read.{unit_of, mode_of, begin_of, activity_of};

use text::{Item, Lexed, Refusal, Token};

// The place behind a unit, "ms" or "us", and whether it is "ms".
#[tactic(auto, unfolding(crate::specs::Read::unit_of, crate::specs::Read::unit_by))]
fn unit(s: &[u8], at: usize) -> Result<(bool, usize), Refusal>
    ensures { result ≡ unit_of s.now at }
{
    let letters = wants::next(s, at, Token::Name)?;
    let milli = wants::spelt(s, letters, b"ms").is_ok();
    if !milli {
        wants::spelt(s, letters, b"us")?;
    }
    Ok((milli, letters.end))
}

// name "[" "period" "=" number unit "]" "{": the mode that begins at `begin`, behind its "mode"
#[tactic(auto, unfolding(crate::specs::Read::mode_of))]
fn behind(s: &[u8], start: bool, begin: usize, at: usize) -> Result<(Item, usize), Refusal>
    ensures { result ≡ mode_of s.now start begin at }
{
    let name = wants::next(s, at, Token::Name)?;
    let bracket = wants::next(s, name.end, Token::LeftBracket)?;
    let period = wants::word(s, bracket.end, b"period")?;
    let equals = wants::next(s, period.end, Token::Equals)?;
    let digits = wants::next(s, equals.end, Token::Number)?;
    let (milli, next) = unit(s, digits.end)?;
    let closing = wants::next(s, next, Token::RightBracket)?;
    let last = wants::next(s, closing.end, Token::LeftBrace)?;
    let item = Item::ModeBegin {
        start,
        at: begin,
        name,
        digits,
        milli,
    };
    Ok((item, last.end))
}

// ["start"] "mode" and what follows; the first token is found
#[tactic(auto, unfolding(crate::specs::Read::begin_of))]
pub fn begin(s: &[u8], found: Lexed) -> Result<(Item, usize), Refusal>
    ensures { result ≡ begin_of s.now found }
{
    if found.token == Token::KeyStart {
        let word = wants::next(s, found.end, Token::KeyMode)?;
        behind(s, true, found.start, word.end)
    } else {
        let word = wants::given(found, Token::KeyMode)?;
        behind(s, false, word.start, word.end)
    }
}

// "[", which is found, "freq" "=" number "]", in section k
#[tactic(auto, unfolding(crate::specs::Read::activity_of))]
pub fn activity(s: &[u8], k: u8, found: Lexed) -> Result<(Item, usize), Refusal>
    ensures { result ≡ activity_of s.now k found }
{
    let bracket = wants::given(found, Token::LeftBracket)?;
    let freq = wants::word(s, bracket.end, b"freq")?;
    let equals = wants::next(s, freq.end, Token::Equals)?;
    let digits = wants::next(s, equals.end, Token::Number)?;
    let last = wants::next(s, digits.end, Token::RightBracket)?;
    let item = Item::Activity {
        kind: k,
        at: bracket.start,
        digits,
    };
    Ok((item, last.end))
}

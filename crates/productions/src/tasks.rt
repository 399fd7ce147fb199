// Task: name "{" {"input" {type name ";"}} {"output" {type name ":=" value ";"}} "uses" name ";" "}".
ghost use Rattle.std.specs.Prelude.{◌≡◌};
ghost use Rattle.productions.specs.Read.{task_of, input_of, output_of, task_end_of};

use super::literals;
use text::{Item, Lexed, Refusal, Token};

// "task", which is found, name "{"
#[tactic(auto, unfolding(crate::specs::Read::task_of))]
pub fn begin(s: &[u8], found: Lexed) -> Result<(Item, usize), Refusal>
    ensures { result ≡ task_of s.now found }
{
    let word = wants::given(found, Token::KeyTask)?;
    let name = wants::next(s, word.end, Token::Name)?;
    let last = wants::next(s, name.end, Token::LeftBrace)?;
    Ok((Item::TaskBegin(name), last.end))
}

// type, which is found, name ";"
#[tactic(auto, unfolding(crate::specs::Read::input_of))]
pub fn input(s: &[u8], found: Lexed) -> Result<(Item, usize), Refusal>
    ensures { result ≡ input_of s.now found }
{
    let typ = wants::given(found, Token::Name)?;
    let name = wants::next(s, typ.end, Token::Name)?;
    let last = wants::next(s, name.end, Token::Semicolon)?;
    Ok((Item::Input { typ, name }, last.end))
}

// type, which is found, name ":=" value ";"
#[tactic(auto, unfolding(crate::specs::Read::output_of))]
pub fn output(s: &[u8], found: Lexed) -> Result<(Item, usize), Refusal>
    ensures { result ≡ output_of s.now found }
{
    let typ = wants::given(found, Token::Name)?;
    let name = wants::next(s, typ.end, Token::Name)?;
    let becomes = wants::next(s, name.end, Token::Becomes)?;
    let (value, next) = literals::read(s, becomes.end)?;
    let last = wants::next(s, next, Token::Semicolon)?;
    Ok((Item::Output { typ, name, value }, last.end))
}

// "uses", which is found, name ";" "}"
#[tactic(auto, unfolding(crate::specs::Read::task_end_of))]
pub fn end(s: &[u8], found: Lexed) -> Result<(Item, usize), Refusal>
    ensures { result ≡ task_end_of s.now found }
{
    let uses = wants::given(found, Token::KeyUses)?;
    let name = wants::next(s, uses.end, Token::Name)?;
    let semicolon = wants::next(s, name.end, Token::Semicolon)?;
    let last = wants::next(s, semicolon.end, Token::RightBrace)?;
    Ok((Item::TaskEnd(name), last.end))
}

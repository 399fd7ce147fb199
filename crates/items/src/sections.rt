// Sections: a keyword may stand where its section is not behind. 0 is the section of every other token.
ghost use Rattle.std.specs.Prelude.{◌≡◌};
ghost use Rattle.text.specs.Tokens.{code_of};
ghost use Rattle.text.specs.Items.{section_of, portion_of, part_of};
ghost use Rattle.items.specs.Bodies.{refused_of, begin_of, token_of};

use productions::close;
use text::{Item, Lexed, ReadItem, Refusal, State, Token};

// The section of a module that a token opens, or its end.
#[tactic(auto, using(wants::proofs::Others::other_code), unfolding(text::specs::Items::section_of))]
pub fn of_module(token: Token) -> u8
    ensures { result ≡ section_of (code_of token) }
{
    match token {
        Token::KeyConst => 2,
        Token::KeySensor => 3,
        Token::KeyActuator => 4,
        Token::KeyTask => 5,
        Token::KeyStart | Token::KeyMode => 6,
        Token::RightBrace => 7,
        _ => 0,
    }
}

// The section of a task that a token opens.
#[tactic(auto, using(wants::proofs::Others::other_code), unfolding(text::specs::Items::portion_of))]
pub fn of_task(token: Token) -> u8
    ensures { result ≡ portion_of (code_of token) }
{
    match token {
        Token::KeyInput => 2,
        Token::KeyOutput => 3,
        Token::KeyUses => 4,
        _ => 0,
    }
}

// The section of a mode that a token opens, or its end.
#[tactic(auto, using(wants::proofs::Others::other_code), unfolding(text::specs::Items::part_of))]
pub fn of_mode(token: Token) -> u8
    ensures { result ≡ part_of (code_of token) }
{
    match token {
        Token::KeyTask => 2,
        Token::KeyActuator => 3,
        Token::KeyMode => 4,
        Token::RightBrace => 5,
        _ => 0,
    }
}

// A token that may not stand here.
pub fn refused(found: Lexed) -> ReadItem
    ensures { result ≡ refused_of found }
{
    close(State::Finish, Err(wants::refusal(found)))
}

// The token that opens a section.
#[tactic(auto, unfolding(crate::specs::Bodies::begin_of))]
pub fn begin(found: Lexed) -> Result<(Item, usize), Refusal>
    ensures { result ≡ begin_of found }
{
    let word = wants::given_any(found)?;
    Ok((Item::Section, word.end))
}

// The token found, which must be t, as an item.
#[tactic(auto, unfolding(crate::specs::Bodies::token_of))]
pub fn token(found: Lexed, t: Token, item: Item) -> Result<(Item, usize), Refusal>
    ensures { result ≡ token_of found t item }
{
    let last = wants::given(found, t)?;
    Ok((item, last.end))
}

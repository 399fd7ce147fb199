// The body of a mode.
ghost use Rattle.std.specs.Prelude.{◌≡◌};
ghost use Rattle.text.specs.Expect.{from};
ghost use Rattle.text.specs.Items.{mode_body_at};
ghost use Rattle.items.specs.Bodies.{head_of, mode_section_of};

use super::sections;
use productions::{close, modes};
use text::{Item, Lexed, ReadItem, State, Token};

// An activity in section k, where there is a section, by its first token, which is found.
#[tactic(auto, unfolding(crate::specs::Bodies::head_of))]
fn head(s: &[u8], k: u8, found: Lexed) -> ReadItem
    ensures { result ≡ head_of s.now k found }
{
    match k {
        1 => sections::refused(found),
        _ => close(State::Act(k), modes::activity(s, k, found)),
    }
}

// The section that the token found opens, in section k.
#[tactic(auto, unfolding(crate::specs::Bodies::mode_section_of))]
fn section(k: u8, found: Lexed) -> ReadItem
    ensures { result ≡ mode_section_of k found }
{
    match sections::of_mode(found.token) {
        w if w < k => sections::refused(found),
        5 => close(
            State::Module(6),
            sections::token(found, Token::RightBrace, Item::ModeEnd),
        ),
        w => close(State::Mode(w), sections::begin(found)),
    }
}

pub fn body(s: &[u8], k: u8, at: usize) -> ReadItem
    ensures { result ≡ mode_body_at s.now k (from at) }
{
    let found = scan::token(s, at);
    match found.token {
        Token::LeftBracket => head(s, k, found),
        _ => section(k, found),
    }
}

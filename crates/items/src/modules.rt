// The body of a module.
ghost use Rattle.std.specs.Prelude.{◌≡◌};
ghost use Rattle.text.specs.Expect.{from};
ghost use Rattle.text.specs.Items.{module_body_at, finish_at};
ghost use Rattle.items.specs.Bodies.{declaration_of, module_section_of};

use super::sections;
use productions::{close, declarations, modes, tasks};
use text::{Item, Lexed, ReadItem, State, Token};

// A declaration in section k, by its first token, which is found.
#[tactic(auto, unfolding(crate::specs::Bodies::declaration_of))]
fn declaration(s: &[u8], k: u8, found: Lexed) -> ReadItem
    ensures { result ≡ declaration_of s.now k found }
{
    match k {
        2 => close(State::Module(2), declarations::constant(s, found)),
        3 => close(State::Module(3), declarations::sensor(s, found)),
        4 => close(State::Module(4), declarations::actuator(s, found)),
        _ => sections::refused(found),
    }
}

// The section that the token found opens, in section k.
#[tactic(auto, unfolding(crate::specs::Bodies::module_section_of))]
fn section(s: &[u8], k: u8, found: Lexed) -> ReadItem
    ensures { result ≡ module_section_of s.now k found }
{
    match sections::of_module(found.token) {
        w if w < k => sections::refused(found),
        5 => close(State::Task(1), tasks::begin(s, found)),
        6 => close(State::Mode(1), modes::begin(s, found)),
        7 => close(
            State::Finish,
            sections::token(found, Token::RightBrace, Item::ModuleEnd),
        ),
        w => close(State::Module(w), sections::begin(found)),
    }
}

pub fn body(s: &[u8], k: u8, at: usize) -> ReadItem
    ensures { result ≡ module_body_at s.now k (from at) }
{
    let found = scan::token(s, at);
    match found.token {
        Token::Name => declaration(s, k, found),
        _ => section(s, k, found),
    }
}

// The end of the text.
pub fn finish(s: &[u8], at: usize) -> ReadItem
    ensures { result ≡ finish_at s.now (from at) }
{
    close(
        State::Finish,
        sections::token(scan::token(s, at), Token::End, Item::End),
    )
}

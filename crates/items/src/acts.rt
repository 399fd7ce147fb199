// An activity behind its "]".
ghost use Rattle.std.specs.Prelude.{◌≡◌};
ghost use Rattle.text.specs.Expect.{from};
ghost use Rattle.text.specs.Items.{act_at};
ghost use Rattle.items.specs.Bodies.{target_of};

use productions::{activities, close};
use text::{Lexed, ReadItem, State, Token};

// What an activity of section k does, by its first token, which is found.
#[inline(always)]
#[tactic(auto, unfolding(crate::specs::Bodies::target_of))]
pub fn target(s: &[u8], k: u8, found: Lexed) -> ReadItem
    ensures { result ≡ target_of s.now k found }
{
    match k {
        2 => activities::invoke(s, found),
        3 => close(State::Mode(3), activities::update(s, found)),
        _ => close(State::Mode(4), activities::switch(s, found)),
    }
}

// A guard, or what is done.
pub fn act(s: &[u8], k: u8, at: usize) -> ReadItem
    ensures { result ≡ act_at s.now k (from at) }
{
    let found = scan::token(s, at);
    match found.token {
        Token::KeyIf => activities::guard(s, k, found),
        _ => target(s, k, found),
    }
}

// The body of a task.
ghost use Rattle.std.specs.Prelude.{◌≡◌};
ghost use Rattle.text.specs.Expect.{from};
ghost use Rattle.text.specs.Items.{task_body_at};
ghost use Rattle.items.specs.Bodies.{task_port_of, task_section_of};

use super::sections;
use productions::{close, tasks};
use text::{Lexed, ReadItem, State, Token};

// A port in section k, by its first token, which is found.
#[tactic(auto, unfolding(crate::specs::Bodies::task_port_of))]
fn port(s: &[u8], k: u8, found: Lexed) -> ReadItem
    ensures { result ≡ task_port_of s.now k found }
{
    match k {
        2 => close(State::Task(2), tasks::input(s, found)),
        3 => close(State::Task(3), tasks::output(s, found)),
        _ => sections::refused(found),
    }
}

// The section that the token found opens, in section k.
#[tactic(auto, unfolding(crate::specs::Bodies::task_section_of))]
fn section(s: &[u8], k: u8, found: Lexed) -> ReadItem
    ensures { result ≡ task_section_of s.now k found }
{
    match sections::of_task(found.token) {
        w if w < k => sections::refused(found),
        4 => close(State::Module(5), tasks::end(s, found)),
        w => close(State::Task(w), sections::begin(found)),
    }
}

pub fn body(s: &[u8], k: u8, at: usize) -> ReadItem
    ensures { result ≡ task_body_at s.now k (from at) }
{
    let found = scan::token(s, at);
    match found.token {
        Token::Name => port(s, k, found),
        _ => section(s, k, found),
    }
}

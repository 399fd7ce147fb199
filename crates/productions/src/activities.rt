// What an activity does, and its guard.
ghost use Rattle.std.specs.Prelude.{◌≡◌};
ghost use Rattle.productions.specs.Read.{Behind, whole_of, listed_of, call_of, named_of, condition_of, invocation_of, guard_of, invoke_of, argument_of, last_of, guard_arg_of, arg_of, update_of, switch_of};

use super::{close, lists, ports};
use text::{Item, Lexed, Name, Port, ReadItem, Refusal, State, Token};

// A name, how many arguments follow it, and the place behind what is read.
#[derive(Clone, Copy)]
struct Call {
    name: Name,
    count: usize,
    next: usize,
}

// Behind "(": ")", which is found, and a closing token.
#[inline(always)]
#[tactic(auto, unfolding(crate::specs::Read::whole_of))]
fn whole(
    s: &[u8],
    head: Result<(Name, usize), Refusal>,
    found: Lexed,
    closing: Token,
) -> Result<Call, Refusal>
    ensures { result ≡ whole_of s.now head found closing }
{
    let (name, _) = head?;
    let last = wants::next(s, found.end, closing)?;
    Ok(Call {
        name,
        count: 0,
        next: last.end,
    })
}

// Behind "(": arguments, the first token of which is found; as far as the "(".
#[inline(always)]
#[tactic(auto, unfolding(crate::specs::Read::listed_of))]
fn listed(s: &[u8], head: Result<(Name, usize), Refusal>, found: Lexed) -> Result<Call, Refusal>
    requires { Behind s.now head found }
    ensures { result ≡ listed_of s.now head }
{
    let (name, next) = head?;
    Ok(Call {
        name,
        count: lists::count(s, next, found),
        next,
    })
}

// Behind a name and its "(", or where they are refused: whether ")" follows, and the call.
#[inline(always)]
#[tactic(auto, unfolding(crate::specs::Read::call_of))]
fn called(
    s: &[u8],
    head: Result<(Name, usize), Refusal>,
    closing: Token,
) -> (bool, Result<Call, Refusal>)
    ensures { result ≡ call_of s.now head closing }
{
    let at = match head {
        Ok((_, next)) => next,
        Err(refusal) => refusal.at,
    };
    let found = scan::token(s, at);
    if found.token == Token::RightParen {
        return (true, whole(s, head, found, closing));
    }
    (false, listed(s, head, found))
}

// name "("
#[tactic(auto, unfolding(crate::specs::Read::named_of))]
fn named(s: &[u8], name: Name) -> Result<(Name, usize), Refusal>
    ensures { result ≡ named_of s.now name }
{
    let paren = wants::next(s, name.end, Token::LeftParen)?;
    Ok((name, paren.end))
}

// "if", which is found, name "("
#[tactic(auto, unfolding(crate::specs::Read::condition_of))]
fn condition(s: &[u8], found: Lexed) -> Result<(Name, usize), Refusal>
    ensures { result ≡ condition_of s.now found }
{
    let word = wants::given(found, Token::KeyIf)?;
    named(s, wants::next(s, word.end, Token::Name)?)
}

// name, which is found, "("
#[tactic(auto, unfolding(crate::specs::Read::invocation_of))]
fn invocation(s: &[u8], found: Lexed) -> Result<(Name, usize), Refusal>
    ensures { result ≡ invocation_of s.now found }
{
    named(s, wants::given(found, Token::Name)?)
}

// "if", which is found, name "(", and ")" "then" where it has no argument
#[tactic(auto, unfolding(crate::specs::Read::guard_of))]
pub fn guard(s: &[u8], k: u8, found: Lexed) -> ReadItem
    ensures { result ≡ guard_of s.now k found }
{
    let (bare, call) = called(s, condition(s, found), Token::KeyThen);
    let state = if bare {
        State::Guarded(k)
    } else {
        State::GuardArgs(k)
    };
    close(
        state,
        call.map(|Call { name, count, next }| (Item::Guard { name, count }, next)),
    )
}

// name, which is found, "(", and ")" ";" where it has no port
#[inline(always)]
#[tactic(auto, unfolding(crate::specs::Read::invoke_of))]
pub fn invoke(s: &[u8], found: Lexed) -> ReadItem
    ensures { result ≡ invoke_of s.now found }
{
    let (bare, call) = called(s, invocation(s, found), Token::Semicolon);
    let state = if bare { State::Mode(2) } else { State::Args };
    close(
        state,
        call.map(|Call { name, count, next }| (Item::Invoke { task: name, count }, next)),
    )
}

// Behind an argument, or where it is refused: whether "," follows, and the argument, with its "," or with ")" and a closing token.
#[inline(always)]
#[tactic(auto, unfolding(crate::specs::Read::argument_of))]
fn argument(s: &[u8], at: usize, closing: Token) -> (bool, Result<(Port, usize), Refusal>)
    ensures { result ≡ argument_of s.now at closing }
{
    let read = ports::read(s, at);
    let found = match read {
        Ok((_, found)) => found,
        Err(refusal) => scan::token(s, refusal.at),
    };
    if found.token == Token::Comma {
        return (true, read.map(|(port, found)| (port, found.end)));
    }
    (false, last(s, read, closing))
}

// The last argument with its ")" and a closing token.
#[tactic(auto, unfolding(crate::specs::Read::last_of))]
fn last(
    s: &[u8],
    read: Result<(Port, Lexed), Refusal>,
    closing: Token,
) -> Result<(Port, usize), Refusal>
    ensures { result ≡ last_of s.now read closing }
{
    let (port, found) = read?;
    let paren = wants::given(found, Token::RightParen)?;
    let last = wants::next(s, paren.end, closing)?;
    Ok((port, last.end))
}

// arg ",", or arg ")" "then"
#[tactic(auto, unfolding(crate::specs::Read::guard_arg_of))]
pub fn guard_arg(s: &[u8], k: u8, at: usize) -> ReadItem
    ensures { result ≡ guard_arg_of s.now k at }
{
    let (more, read) = argument(s, at, Token::KeyThen);
    let state = if more {
        State::GuardArgs(k)
    } else {
        State::Guarded(k)
    };
    close(state, read.map(|(port, next)| (Item::GuardArg(port), next)))
}

// port ",", or port ")" ";"
#[tactic(auto, unfolding(crate::specs::Read::arg_of))]
pub fn arg(s: &[u8], at: usize) -> ReadItem
    ensures { result ≡ arg_of s.now at }
{
    let (more, read) = argument(s, at, Token::Semicolon);
    let state = if more { State::Args } else { State::Mode(2) };
    close(state, read.map(|(port, next)| (Item::Arg(port), next)))
}

// name, which is found, ":=" port ";"
#[tactic(auto, unfolding(crate::specs::Read::update_of))]
pub fn update(s: &[u8], found: Lexed) -> Result<(Item, usize), Refusal>
    ensures { result ≡ update_of s.now found }
{
    let actuator = wants::given(found, Token::Name)?;
    let becomes = wants::next(s, actuator.end, Token::Becomes)?;
    let (source, found) = ports::read(s, becomes.end)?;
    let last = wants::given(found, Token::Semicolon)?;
    Ok((Item::Update { actuator, source }, last.end))
}

// name, which is found, ";"
#[tactic(auto, unfolding(crate::specs::Read::switch_of))]
pub fn switch(s: &[u8], found: Lexed) -> Result<(Item, usize), Refusal>
    ensures { result ≡ switch_of s.now found }
{
    let mode = wants::given(found, Token::Name)?;
    let last = wants::next(s, mode.end, Token::Semicolon)?;
    Ok((Item::Switch(mode), last.end))
}

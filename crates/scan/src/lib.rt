// The tokens of a text: white space and comments, names, keywords, numbers and signs.
// Promises that each function answers what the definitions of text say, at every place, also behind the end.
// Builds on text and model.
#![tactic(auto)]

ghost use Rattle.std.specs.Prelude.{◌≡◌, ◌<◌, true, length, get_or};
ghost use Rattle.text.specs.Tokens.{code_of, lexed, starts_at, token_at, code_at, stands as stands_at};
ghost use Rattle.scan.specs.Runs.{colon_equals, small};
ghost use Rattle.scan.specs.Others.{SignOf, Other};

use text::{Lexed, Token};

mod keys;
mod spaces;
mod words;

pub use words::{part, same, value};

// The number of a token.
pub fn code(t: Token) -> u8
    ensures { result ≡ code_of t }
{
    t as u8
}

// The sign that a byte alone is.
fn sign(b: u8) -> Option<Token>
    ensures { SignOf b result }
{
    match b {
        b'{' => Some(Token::LeftBrace),
        b'}' => Some(Token::RightBrace),
        b'[' => Some(Token::LeftBracket),
        b']' => Some(Token::RightBracket),
        b'(' => Some(Token::LeftParen),
        b')' => Some(Token::RightParen),
        b';' => Some(Token::Semicolon),
        b'=' => Some(Token::Equals),
        b'.' => Some(Token::Dot),
        b',' => Some(Token::Comma),
        b'-' => Some(Token::Minus),
        _ => None,
    }
}

// Whether b and the byte at a place behind it are `:=`.
fn becomes(s: &[u8], next: usize, b: u8) -> bool
    ensures { result ≡ colon_equals s.now next b }
{
    b == b':' && next < s.len() && s[next] == b'='
}

fn found(token: Token, start: usize, end: usize) -> Lexed
    ensures { result ≡ lexed token start end }
{
    Lexed { token, start, end }
}

// The word that starts at a place with a small letter: a keyword, or else a name.
fn word(s: &[u8], at: usize) -> Lexed
    requires { (at < length s.now) × (small (get_or s.now at 0) ≡ true) }
    ensures { result ≡ starts_at s.now at }
{
    match words::word_run(s, at) {
        words::Run::Name(end) => found(Token::Name, at, end),
        words::Run::Word(end) => found(keys::word_token(&s[at..end]), at, end),
    }
}

// The token that starts at a place with a byte b that is no small letter and no sign.
fn other(s: &[u8], at: usize, b: u8) -> Lexed
    requires { Other s.now at b }
    ensures { result ≡ starts_at s.now at }
{
    let next = at + 1;
    if b.is_ascii_digit() {
        found(
            Token::Number,
            at,
            words::run_end(s, next, |b| b.is_ascii_digit()),
        )
    } else if words::is_letter(b) {
        found(Token::Name, at, words::run_end(s, next, words::is_word))
    } else if becomes(s, next, b) {
        found(Token::Becomes, at, next + 1)
    } else {
        found(Token::Bad, at, next)
    }
}

// The token that starts at a place with byte b.
fn starts_at(s: &[u8], at: usize, b: u8) -> Lexed
    requires { (at < length s.now) × (get_or s.now at 0 ≡ b) }
    ensures { result ≡ starts_at s.now at }
{
    if b.is_ascii_lowercase() {
        return word(s, at);
    }
    match sign(b) {
        Some(token) => found(token, at, at + 1),
        None => other(s, at, b),
    }
}

// The token behind white space and comments that begin at a place.
fn first_token(s: &[u8], at: usize) -> Lexed
    ensures { result ≡ token_at s.now at }
{
    match spaces::first(s, at) {
        spaces::Place::Byte(place, b) => starts_at(s, place, b),
        spaces::Place::End(place) => found(Token::End, place, place),
        spaces::Place::Open(place) => found(Token::Bad, place, place),
    }
}

// The token at a place of the text, behind white space and comments.
pub fn token(s: &[u8], at: usize) -> Lexed
    ensures { result ≡ token_at s.now at }
{
    // Field by field: a copy of the whole takes along what lies between them.
    let lexed = first_token(s, at);
    found(lexed.token, lexed.start, lexed.end)
}

// The token at a place of a list of names; the sign behind a name mostly stands at the place itself.
pub fn list_token(s: &[u8], at: usize) -> Lexed
    ensures { result ≡ token_at s.now at }
{
    match s.get(at) {
        Some(b',') => found(Token::Comma, at, at + 1),
        Some(b')') => found(Token::RightParen, at, at + 1),
        Some(b'.') => found(Token::Dot, at, at + 1),
        _ => token(s, at),
    }
}

// The number of the token at a place.
pub fn code_at(s: &[u8], at: usize) -> u8
    ensures { result ≡ code_at s.now at }
{
    code(token(s, at).token)
}

// Whether the token at a place is t.
pub fn stands(s: &[u8], at: usize, t: Token) -> bool
    ensures { result ≡ stands_at t s.now at }
{
    token(s, at).token == t
}

// How many arguments stand between parentheses.
ghost use Rattle.std.specs.Prelude.{◌≡◌};
ghost use Rattle.text.specs.Productions.{count_at};
ghost use Rattle.text.specs.Tokens.{token_at};

use text::{Lexed, Token};

// The number of arguments behind "(", where ")" does not follow at once.
fn counted(s: &[u8], at: usize) -> usize
    ensures { result ≡ count_at s.now at }
{
    let mut i = at;
    let mut n = 1;
    while i < s.len() {
        let next = scan::list_token(s, i);
        match next.token {
            Token::Comma => n += 1,
            Token::Name | Token::Dot => {}
            _ => return n,
        }
        i = next.end;
    }
    n
}

// The same where the first token is found: a first name is not looked at again.
pub(crate) fn count(s: &[u8], at: usize, found: Lexed) -> usize
    requires { found ≡ token_at s.now at }
    ensures { result ≡ count_at s.now at }
{
    match found.token {
        Token::Name => counted(s, found.end),
        _ => counted(s, at),
    }
}

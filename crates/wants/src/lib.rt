// Expectations: the token that is found, or the next one, must be a given one; its place is read, or it is refused.
// Promises that each function answers what text's `want` says: the token's place, or refusal 2 or 3.
// Builds on scan, text and model.
#![tactic(auto)]

ghost use Rattle.std.specs.Prelude.{◌≡◌};
ghost use Rattle.text.specs.declared.Token.{Token};
ghost use Rattle.text.specs.Expect.{from, refusal as refusal_of, want, want_word};
ghost use Rattle.wants.specs.Given.{refusal_in, told, allowed_of, want_of, any_of, spelling};

use text::{Lexed, Name, Refusal, Token};

mod signs;

// 2 where the bytes start no token, else 3.
#[inline(always)]
pub fn refusal(found: Lexed) -> Refusal
    ensures { result ≡ refusal_in (refusal_of found) }
{
    Refusal {
        number: if found.token == Token::Bad { 2 } else { 3 },
        at: found.start,
    }
}

// The token found, where it may stand here.
#[inline(always)]
fn allow(allowed: bool, found: Lexed) -> Result<Name, Refusal>
    ensures { result ≡ told (allowed_of allowed found) }
{
    if allowed {
        Ok(Name {
            start: found.start,
            end: found.end,
        })
    } else {
        Err(refusal(found))
    }
}

// The token found, which must be t.
#[inline(always)]
pub fn given(found: Lexed, t: Token) -> Result<Name, Refusal>
    ensures { result ≡ told (want_of t found) }
{
    allow(found.token == t, found)
}

// The token found, whichever it is, but not the end.
#[inline(always)]
pub fn given_any(found: Lexed) -> Result<Name, Refusal>
    ensures { result ≡ told (any_of found) }
{
    allow(!matches!(found.token, Token::End | Token::Bad), found)
}

// The next token, which must be t.
#[inline(always)]
pub fn next(s: &[u8], at: usize, t: Token) -> Result<Name, Refusal>
    ensures { result ≡ told (want t s.now (from at)) }
{
    match signs::end_at(s, at, t) {
        Some(end) => Ok(Name {
            start: end - 1,
            end,
        }),
        None => given(scan::token(s, at), t),
    }
}

// A name that was read, where it is spelt as a word; another name is 3.
pub fn spelt(s: &[u8], name: Name, word: &[u8]) -> Result<Name, Refusal>
    ensures { result ≡ told (spelling word.now s.now name) }
{
    if scan::same(s, name.start, name.end, word) {
        Ok(name)
    } else {
        Err(Refusal {
            number: 3,
            at: name.start,
        })
    }
}

// The next token, which must be a name that is spelt as a word.
pub fn word(s: &[u8], at: usize, word: &[u8]) -> Result<Name, Refusal>
    ensures { result ≡ told (want_word word.now s.now (from at)) }
{
    spelt(s, next(s, at, Token::Name)?, word)
}

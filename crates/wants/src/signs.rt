// Signs, told by their byte.
ghost use Rattle.std.specs.Prelude.{◌≡◌, IfSome};
ghost use Rattle.wants.specs.Given.{Ends};
ghost use Rattle.scan.specs.Others.{Standing};

use text::Token;

// The byte that a sign is.
#[inline(always)]
fn byte_of(t: Token) -> Option<u8>
    ensures { IfSome result (λ b. Standing b t) }
{
    match t {
        Token::LeftBrace => Some(b'{'),
        Token::RightBrace => Some(b'}'),
        Token::LeftBracket => Some(b'['),
        Token::RightBracket => Some(b']'),
        Token::LeftParen => Some(b'('),
        Token::RightParen => Some(b')'),
        Token::Semicolon => Some(b';'),
        Token::Equals => Some(b'='),
        Token::Dot => Some(b'.'),
        Token::Comma => Some(b','),
        Token::Minus => Some(b'-'),
        _ => None,
    }
}

// The place behind the sign t, where that stands at a place or behind a blank there.
#[inline(always)]
pub(crate) fn end_at(s: &[u8], at: usize, t: Token) -> Option<usize>
    ensures { IfSome result (Ends s.now at t) }
{
    let sign = byte_of(t)?;
    let rest = s.get(at..)?;
    match rest {
        [first, ..] if *first == sign => Some(at + 1),
        [b' ', second, ..] if *second == sign => Some(at + 2),
        _ => None,
    }
}

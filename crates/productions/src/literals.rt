// Value: "true", "false", ["-"] number, or an earlier constant's name.
ghost use Rattle.std.specs.Prelude.{◌≡◌};
ghost use Rattle.productions.specs.Read.{literal_of};

use text::{Literal, Refusal, Token};

// A value and the place behind it.
#[tactic(auto, unfolding(crate::specs::Read::literal_by))]
pub fn read(s: &[u8], at: usize) -> Result<(Literal, usize), Refusal>
    ensures { result ≡ literal_of s.now at }
{
    let found = scan::token(s, at);
    let at = found.start;
    match found.token {
        Token::KeyTrue => Ok((Literal::Truth { at, yes: true }, found.end)),
        Token::KeyFalse => Ok((Literal::Truth { at, yes: false }, found.end)),
        Token::Minus => {
            let digits = wants::next(s, found.end, Token::Number)?;
            let minus = true;
            Ok((Literal::Number { at, digits, minus }, digits.end))
        }
        Token::Number => {
            let digits = wants::given(found, Token::Number)?;
            let minus = false;
            Ok((Literal::Number { at, digits, minus }, digits.end))
        }
        _ => {
            let name = wants::given(found, Token::Name)?;
            Ok((Literal::Named(name), name.end))
        }
    }
}

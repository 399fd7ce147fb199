// Port: a sensor's name, or task "." output. Arg: a port or a constant's name.
ghost use Rattle.std.specs.Prelude.{◌≡◌, Ok};
ghost use Rattle.productions.specs.Read.{port_of};

use text::{Lexed, Port, Refusal, Token};

// Field by field: a copy of the whole token takes along what lies between its fields.
#[inline(always)]
fn with(port: Port, found: Lexed) -> Result<(Port, Lexed), Refusal>
    ensures { result ≡ Ok (port, found) }
{
    let behind = Lexed {
        token: found.token,
        start: found.start,
        end: found.end,
    };
    Ok((port, behind))
}

// A port and the token behind it.
#[tactic(auto, unfolding(crate::specs::Read::port_of, crate::specs::Read::port_by))]
pub fn read(s: &[u8], at: usize) -> Result<(Port, Lexed), Refusal>
    ensures { result ≡ port_of s.now at }
{
    let first = wants::next(s, at, Token::Name)?;
    let found = scan::list_token(s, first.end);
    match found.token {
        Token::Dot => {
            let second = wants::next(s, found.end, Token::Name)?;
            return with(
                Port {
                    first,
                    second,
                    dotted: true,
                },
                scan::list_token(s, second.end),
            );
        }
        _ => {
            return with(
                Port {
                    first,
                    second: first,
                    dotted: false,
                },
                found,
            );
        }
    }
}

// Keywords.
ghost use Rattle.std.specs.Prelude.{◌≡◌};
ghost use Rattle.text.specs.Tokens.{word_token};
ghost use Rattle.scan.specs.KeyMarks.{Candidate};

use super::words;
use text::Token;

// The only keyword that a word can be, by its mark: its first letter, twice its last but one and five times its length.
fn candidate(mark: usize) -> Option<(&'static [u8], Token)>
    ensures { Candidate mark result }
{
    match mark {
        359 => Some((b"actuator", Token::KeyActuator)),
        301 => Some((b"as", Token::KeyAs)),
        391 => Some((b"asynchronous", Token::KeyAsynchronous)),
        354 => Some((b"const", Token::KeyConst)),
        357 => Some((b"false", Token::KeyFalse)),
        325 => Some((b"if", Token::KeyIf)),
        363 => Some((b"import", Token::KeyImport)),
        335 => Some((b"init", Token::KeyInit)),
        364 => Some((b"input", Token::KeyInput)),
        329 => Some((b"mode", Token::KeyMode)),
        355 => Some((b"module", Token::KeyModule)),
        375 => Some((b"output", Token::KeyOutput)),
        352 => Some((b"public", Token::KeyPublic)),
        367 => Some((b"sensor", Token::KeySensor)),
        368 => Some((b"start", Token::KeyStart)),
        372 => Some((b"state", Token::KeyState)),
        343 => Some((b"struct", Token::KeyStruct)),
        366 => Some((b"task", Token::KeyTask)),
        338 => Some((b"then", Token::KeyThen)),
        370 => Some((b"true", Token::KeyTrue)),
        360 => Some((b"type", Token::KeyType)),
        339 => Some((b"uses", Token::KeyUses)),
        _ => None,
    }
}

// The token of a word: a keyword, or else a name.
pub(crate) fn word_token(word: &[u8]) -> Token
    ensures { result ≡ word_token word.now }
{
    let n = word.len();
    if n < 2 || 12 < n {
        return Token::Name;
    }
    match candidate(word[0] as usize + word[n - 2] as usize * 2 + n * 5) {
        Some((keyword, token)) if words::alike(word, keyword) => token,
        _ => Token::Name,
    }
}

// The module's head and its declarations: constants, sensors and actuators.
ghost use Rattle.std.specs.Prelude.{◌≡◌};
ghost use Rattle.productions.specs.Read.{module_of, constant_of, sensor_of, actuator_of};

use super::literals;
use text::{Item, Lexed, Refusal, Token};

// "module" name "{"
#[tactic(auto, unfolding(crate::specs::Read::module_of))]
pub fn module(s: &[u8], at: usize) -> Result<(Item, usize), Refusal>
    ensures { result ≡ module_of s.now at }
{
    let word = wants::next(s, at, Token::KeyModule)?;
    let name = wants::next(s, word.end, Token::Name)?;
    let last = wants::next(s, name.end, Token::LeftBrace)?;
    Ok((Item::Module(name), last.end))
}

// name, which is found, "=" value ";"
#[tactic(auto, unfolding(crate::specs::Read::constant_of))]
pub fn constant(s: &[u8], found: Lexed) -> Result<(Item, usize), Refusal>
    ensures { result ≡ constant_of s.now found }
{
    let name = wants::given(found, Token::Name)?;
    let equals = wants::next(s, name.end, Token::Equals)?;
    let (value, next) = literals::read(s, equals.end)?;
    let last = wants::next(s, next, Token::Semicolon)?;
    Ok((Item::Constant { name, value }, last.end))
}

// type, which is found, name "uses" name ";"
#[tactic(auto, unfolding(crate::specs::Read::sensor_of))]
pub fn sensor(s: &[u8], found: Lexed) -> Result<(Item, usize), Refusal>
    ensures { result ≡ sensor_of s.now found }
{
    let typ = wants::given(found, Token::Name)?;
    let name = wants::next(s, typ.end, Token::Name)?;
    let uses = wants::next(s, name.end, Token::KeyUses)?;
    let getter = wants::next(s, uses.end, Token::Name)?;
    let last = wants::next(s, getter.end, Token::Semicolon)?;
    Ok((Item::Sensor { typ, name, getter }, last.end))
}

// type, which is found, name ":=" value "uses" name ";"
#[tactic(auto, unfolding(crate::specs::Read::actuator_of))]
pub fn actuator(s: &[u8], found: Lexed) -> Result<(Item, usize), Refusal>
    ensures { result ≡ actuator_of s.now found }
{
    let typ = wants::given(found, Token::Name)?;
    let name = wants::next(s, typ.end, Token::Name)?;
    let becomes = wants::next(s, name.end, Token::Becomes)?;
    let (value, next) = literals::read(s, becomes.end)?;
    let uses = wants::next(s, next, Token::KeyUses)?;
    let setter = wants::next(s, uses.end, Token::Name)?;
    let last = wants::next(s, setter.end, Token::Semicolon)?;
    let item = Item::Actuator {
        typ,
        name,
        value,
        setter,
    };
    Ok((item, last.end))
}

// Types and values as they are told.
use std::fmt;

// 1 is a boolean, all else an int.
#[derive(Clone, Copy)]
pub(crate) struct Type(pub(crate) u32);

impl fmt::Display for Type {
    fn fmt<W: fmt::Write>(&self, f: &mut fmt::Formatter<W>) -> fmt::Result {
        let name = if self.0 == 1 { "boolean" } else { "int" };
        write!(f, "{name}")
    }
}

// A word as a value of its type; an int of it is in two's complement.
#[derive(Clone, Copy)]
pub(crate) struct Value {
    pub typ: u32,
    pub word: u32,
}

impl fmt::Display for Value {
    fn fmt<W: fmt::Write>(&self, f: &mut fmt::Formatter<W>) -> fmt::Result {
        if self.typ == 1 {
            write!(f, "{}", self.word != 0)
        } else {
            write!(f, "{}", self.word.cast_signed())
        }
    }
}

// The rules 4 to 8 and 11 that names, types, values, declarations and ports must keep, part by part.
// Promises that each function answers with the first of its rules that is broken, in text order, as the definitions of refusals list them, where the index of the table is right for the text.
// Builds on what names mean, and on the table of names.
#![tactic(auto)]

ghost use Rattle.std.specs.Prelude.{◌≡◌, ◌-◌, Bool, [], ◌∷◌, ltb};
ghost use Rattle.refusals.specs.Checks.{check, first};
ghost use Rattle.refusals.specs.Refusals.{long_name, clash as clashing, beyond_int};
ghost use Rattle.refusals.specs.Values.{type_rules, use_rules, value_rules};
ghost use Rattle.judging.specs.Known.{rows_of, Right};

use names::Scope;
use refusals::{Row, Verdict};
use text::{Literal, Name, Refusal};

pub mod declarations;
pub mod ports;

// The names that a text declares up to a place: their table, and how many of its rows are theirs.
#[derive(Clone, Copy)]
pub struct Names<'a> {
    pub text: &'a [u8],
    pub cells: &'a [usize],
    pub rows: usize,
}

// A rule at a place of the text, which is broken there or not.
pub fn rule(number: u8, at: usize, broken: bool) -> Verdict
    ensures { result ≡ first (check number at broken ∷ []) }
{
    if broken {
        return Err(Refusal { number, at });
    }
    Ok(())
}

// 4: whether a name is over 32 bytes.
fn too_long(name: Name) -> bool
    ensures { result ≡ ltb 32 (name.end - name.start) }
{
    32 < name.end.saturating_sub(name.start)
}

// A name of which nothing is asked but its length.
pub fn name_rules(name: Name) -> Verdict
    ensures { result ≡ first (long_name name ∷ []) }
{
    rule(4, name.start, too_long(name))
}

// A type's name.
pub fn type_rules(s: &[u8], name: Name) -> Verdict
    ensures { result ≡ first (type_rules s.now name) }
{
    name_rules(name)?;
    rule(6, name.start, 2 <= meanings::type_named(s, name))
}

// 7: whether two types are known, and differ.
fn clash(wanted: usize, typ: usize) -> bool
    ensures { result ≡ clashing wanted typ }
{
    wanted != 2 && typ != 2 && wanted != typ
}

// A name that means this row, for something of a type.
pub fn use_rules(wanted: usize, row: Row, name: Name) -> Verdict
    ensures { result ≡ first (use_rules wanted row name) }
{
    name_rules(name)?;
    rule(6, name.start, row.sort == 7)?;
    rule(7, name.start, clash(wanted, row.typ))
}

// 8: whether a number is none of 32 bits with a sign.
fn beyond_int(number: usize, minus: bool) -> bool
    ensures { result ≡ beyond_int number minus }
{
    let limit = if minus { 2147483648 } else { 2147483647 };
    limit < number
}

// A number as a value, where a type is wanted.
fn number_rules(s: &[u8], wanted: usize, at: usize, digits: Name, minus: bool) -> Verdict
    ensures { result ≡ first (value_rules s.now [] wanted (Literal.Number at digits minus)) }
{
    rule(7, at, clash(wanted, 0))?;
    rule(
        8,
        digits.start,
        beyond_int(meanings::number_of(s, digits), minus),
    )
}

impl Names<'_> {
    // A value, where a type is wanted.
    pub fn value_rules(&self, wanted: usize, literal: Literal) -> Verdict
        ensures { Right self.now → result ≡ first (value_rules self.now.text.now (rows_of self.now) wanted literal) }
    {
        match literal {
            Literal::Truth { at, yes: _ } => rule(7, at, clash(wanted, 1)),
            Literal::Number { at, digits, minus } => {
                number_rules(self.text, wanted, at, digits, minus)
            }
            Literal::Named(name) => {
                let scope = Scope::Numbered(0);
                let constant = meanings::named(self.text, self.cells, self.rows, scope, 0, name);
                use_rules(wanted, constant, name)
            }
        }
    }
}

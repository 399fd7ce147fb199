// What is declared: 4, 5 and 11 of its name, and the rules of its parts.
ghost use Rattle.std.specs.Prelude.{◌≡◌, [], ◌∷◌, ◌++◌};
ghost use Rattle.refusals.specs.Checks.{first};
ghost use Rattle.refusals.specs.Names.{no_type};
ghost use Rattle.refusals.specs.Refusals.{long_name};
ghost use Rattle.refusals.specs.Values.{type_named, type_rules, value_rules};
ghost use Rattle.refusals.specs.Declarations.{room_of, new_rules, new_port_rules};
ghost use Rattle.judging.specs.Known.{rows_of, Right};
ghost use Rattle.judging.specs.Rooms.{fresh_rules, port_room_rules};

use super::{Names, name_rules, rule, too_long, type_rules};
use names::{Scope, Sought};
use refusals::Verdict;
use text::{Literal, Name};

// The room of each sort in the module's name space.
fn room_of(sort: usize) -> usize
    ensures { result ≡ room_of sort }
{
    match sort {
        0 => 64,
        1 => 32,
        2 => 32,
        3 => 32,
        4 => 8,
        _ => 0,
    }
}

impl Names<'_> {
    // A name that is declared in a scope: its length, and that it has no meaning there yet.
    fn fresh_rules(&self, scope: usize, name: Name) -> Verdict
        ensures { Right self.now → result ≡ first (fresh_rules self.now.text.now (rows_of self.now) scope name) }
    {
        rule(4, name.start, too_long(name))?;
        let scope = Scope::Numbered(scope);
        let before = names::find(
            self.text, self.cells, self.rows, scope, name.start, name.end,
        );
        rule(5, name.start, before.sort < 7)
    }

    // A name declared in the module's name space.
    pub fn new_rules(&self, sort: usize, name: Name) -> Verdict
        ensures { Right self.now → result ≡ first (new_rules self.now.text.now (rows_of self.now) sort name) }
    {
        self.fresh_rules(0, name)?;
        let taken = names::count(self.cells, self.rows, Sought::Sort(sort));
        rule(11, name.start, room_of(sort) <= taken)
    }

    // The room of an input or output in a scope, and in all.
    fn full_rules(&self, scope: usize, sort: usize, at: usize) -> Verdict
        ensures { Right self.now → result ≡ first (port_room_rules (rows_of self.now) scope sort at) }
    {
        let scope = Scope::Numbered(scope);
        let own = names::count(self.cells, self.rows, Sought::PortOf { scope, sort });
        rule(11, at, 8 <= own)?;
        let all = names::count(self.cells, self.rows, Sought::Sort(sort));
        rule(11, at, 128 <= all)
    }

    // An input or output, declared in its task's.
    pub fn new_port_rules(&self, sort: usize, name: Name) -> Verdict
        ensures { Right self.now → result ≡ first (new_port_rules self.now.text.now (rows_of self.now) sort name) }
    {
        let scope = names::count(self.cells, self.rows, Sought::Sort(3));
        self.fresh_rules(scope, name)?;
        self.full_rules(scope, sort, name.start)
    }

    // A constant.
    pub fn constant_rules(&self, name: Name, value: Literal) -> Verdict
        ensures { Right self.now → result ≡ first (new_rules self.now.text.now (rows_of self.now) 0 name ++ value_rules self.now.text.now (rows_of self.now) no_type value) }
    {
        self.new_rules(0, name)?;
        self.value_rules(2, value)
    }

    // A sensor.
    pub fn sensor_rules(&self, typ: Name, name: Name, getter: Name) -> Verdict
        ensures { Right self.now → result ≡ first (type_rules self.now.text.now typ ++ (new_rules self.now.text.now (rows_of self.now) 1 name ++ (long_name getter ∷ []))) }
    {
        type_rules(self.text, typ)?;
        self.new_rules(1, name)?;
        name_rules(getter)
    }

    // A value of the type of this name.
    fn start_rules(&self, typ: Name, value: Literal) -> Verdict
        ensures { Right self.now → result ≡ first (value_rules self.now.text.now (rows_of self.now) (type_named self.now.text.now typ) value) }
    {
        self.value_rules(meanings::type_named(self.text, typ), value)
    }

    // An actuator.
    pub fn actuator_rules(&self, typ: Name, name: Name, value: Literal, setter: Name) -> Verdict
        ensures { Right self.now → result ≡ first (type_rules self.now.text.now typ ++ (new_rules self.now.text.now (rows_of self.now) 2 name ++ (value_rules self.now.text.now (rows_of self.now) (type_named self.now.text.now typ) value ++ (long_name setter ∷ [])))) }
    {
        type_rules(self.text, typ)?;
        self.new_rules(2, name)?;
        self.start_rules(typ, value)?;
        name_rules(setter)
    }

    // An input of a task.
    pub fn input_rules(&self, typ: Name, name: Name) -> Verdict
        ensures { Right self.now → result ≡ first (type_rules self.now.text.now typ ++ new_port_rules self.now.text.now (rows_of self.now) 5 name) }
    {
        type_rules(self.text, typ)?;
        self.new_port_rules(5, name)
    }

    // An output of a task.
    pub fn output_rules(&self, typ: Name, name: Name, value: Literal) -> Verdict
        ensures { Right self.now → result ≡ first (type_rules self.now.text.now typ ++ (new_port_rules self.now.text.now (rows_of self.now) 6 name ++ value_rules self.now.text.now (rows_of self.now) (type_named self.now.text.now typ) value)) }
    {
        type_rules(self.text, typ)?;
        self.new_port_rules(6, name)?;
        self.start_rules(typ, value)
    }
}

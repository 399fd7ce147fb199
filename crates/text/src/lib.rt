// The text of a module as data: tokens, and the flat list of items that the grammar makes of them.
// Promises nothing of itself: its definitions (specs/) say which token stands at a place, and how items and refusals 2 and 3 are read; crate grammar says which they are.
// Builds on model.
#![tactic(auto)]

// White space and comments end at a place; or a block comment that starts there is not closed. The definitions (`spaces_at`) answer it.
#[derive(Clone, Copy)]
pub enum Skipped {
    Stop(usize),
    Open(usize),
}

// A token: a name, a number, a sign, a keyword, the end of the text, or bytes that start no token.
#[derive(Clone, Copy, PartialEq, Eq)]
pub enum Token {
    Name,
    Number,
    LeftBrace,
    RightBrace,
    LeftBracket,
    RightBracket,
    LeftParen,
    RightParen,
    Semicolon,
    Equals,
    Dot,
    Becomes,
    Comma,
    Minus,
    KeyActuator,
    KeyAs,
    KeyAsynchronous,
    KeyConst,
    KeyFalse,
    KeyIf,
    KeyImport,
    KeyInit,
    KeyInput,
    KeyMode,
    KeyModule,
    KeyOutput,
    KeyPublic,
    KeySensor,
    KeyStart,
    KeyState,
    KeyStruct,
    KeyTask,
    KeyThen,
    KeyTrue,
    KeyType,
    KeyUses,
    End,
    Bad,
}

// A token, and where it starts and ends.
#[derive(Clone, Copy)]
pub struct Lexed {
    pub token: Token,
    pub start: usize,
    pub end: usize,
}

// What was read last: where it starts and ends; or the number of a refusal, and its place. The definitions (`want` and all that read by it) answer it, with the number as a field.
#[derive(Clone, Copy)]
pub struct Got {
    pub bad: u8,
    pub start: usize,
    pub end: usize,
}

// A refusal of a text: its number in document 01, and its place.
#[derive(Clone, Copy, PartialEq, Eq)]
pub struct Refusal {
    pub number: u8,
    pub at: usize,
}

// A name, or the digits of a number: the bytes from start up to end.
#[derive(Clone, Copy)]
pub struct Name {
    pub start: usize,
    pub end: usize,
}

// A port as it is written: a name, or name "." name.
#[derive(Clone, Copy)]
pub struct Port {
    pub first: Name,
    pub second: Name,
    pub dotted: bool,
}

// A value as it is written. `at` is where it starts, a minus included.
#[derive(Clone, Copy)]
pub enum Literal {
    Truth {
        at: usize,
        yes: bool,
    },
    Number {
        at: usize,
        digits: Name,
        minus: bool,
    },
    Named(Name),
}

// A value as Got, and what it is, as the definitions (`literal_at`) answer it.
#[derive(Clone, Copy)]
pub struct ReadLiteral {
    pub bad: u8,
    pub start: usize,
    pub end: usize,
    pub literal: Literal,
}

// A port as Got, and which it is, as the definitions (`port_at`) answer it.
#[derive(Clone, Copy)]
pub struct ReadPort {
    pub bad: u8,
    pub start: usize,
    pub end: usize,
    pub port: Port,
}

// Where in the grammar an item begins. The numbers count the sections of a body, from 1 before the first.
#[derive(Clone, Copy)]
pub enum State {
    Begin,
    Module(u8),
    Task(u8),
    Mode(u8),
    Act(u8),
    Guarded(u8),
    GuardArgs(u8),
    Args,
    Finish,
}

// An item of the text, with the places that refusals name. An activity's kind is its section's: 2 task, 3 actuator, 4 mode.
#[derive(Clone, Copy)]
pub enum Item {
    Module(Name),
    Section,
    Constant {
        name: Name,
        value: Literal,
    },
    Sensor {
        typ: Name,
        name: Name,
        getter: Name,
    },
    Actuator {
        typ: Name,
        name: Name,
        value: Literal,
        setter: Name,
    },
    TaskBegin(Name),
    Input {
        typ: Name,
        name: Name,
    },
    Output {
        typ: Name,
        name: Name,
        value: Literal,
    },
    TaskEnd(Name),
    ModeBegin {
        start: bool,
        at: usize,
        name: Name,
        digits: Name,
        milli: bool,
    },
    Activity {
        kind: u8,
        at: usize,
        digits: Name,
    },
    Guard {
        name: Name,
        count: usize,
    },
    GuardArg(Port),
    Invoke {
        task: Name,
        count: usize,
    },
    Arg(Port),
    Update {
        actuator: Name,
        source: Port,
    },
    Switch(Name),
    ModeEnd,
    ModuleEnd,
    End,
    No {
        number: u8,
        at: usize,
    },
}

// An item, the state behind it and the place behind it.
#[derive(Clone, Copy)]
pub struct ReadItem {
    pub item: Item,
    pub state: State,
    pub next: usize,
}

// Events that can be declared, and patterns that match them.
use text::Name;

// A parameter with its value.
#[derive(Drop)]
pub struct Param {
    pub name: Name,
    pub value: Name,
}

// The name of a parameter and a value, wherever these two stand.
#[derive(Clone, Copy, PartialEq, Eq)]
pub struct Pair<'a> {
    pub name: &'a Name,
    pub value: &'a Name,
}

// Whether an event uses what is licensed.
#[derive(Clone, Copy, PartialEq, Eq, Debug)]
pub enum Class {
    Use,
    Other,
}

#[derive(Drop)]
pub struct Event {
    pub name: Name,
    pub class: Class,
    pub params: Vec<Param>,
}

// Matches each event of its name that has all of its parameters with these values, and maybe more.
#[derive(Drop)]
pub struct Pattern {
    pub name: Name,
    pub params: Vec<Param>,
}

// The rows of a sheet: each is a term of the licence.
ghost use Rattle.std.specs.Prelude.{◌≡◌};
ghost use Rattle.std.specs.Option.{option_copied};
ghost use Rattle.osl.specs.Resolving.{test_pattern, count_pattern};

use crate::event::{Param, Pattern};
use text::Name;

// What is true or false of a step.
#[derive(Drop)]
pub enum Test {
    True,
    False,
    // A matching event is starting.
    First(Pattern),
    // A matching event is starting or ongoing.
    Any(Pattern),
    // No matching event is starting.
    NoFirst(Pattern),
    // No matching event is starting or ongoing.
    NoAny(Pattern),
}

impl Test {
    // What the test speaks of, unless it is always true or always false.
    pub fn pattern(&self) -> Option<&Pattern>
        ensures { option_copied result ≡ test_pattern self.now }
    {
        match self {
            Test::True | Test::False => None,
            Test::First(pattern)
            | Test::Any(pattern)
            | Test::NoFirst(pattern)
            | Test::NoAny(pattern) => Some(pattern),
        }
    }
}

// What is counted in a step. A matching event of the sheet adds one, however many parameters it has.
#[derive(Drop)]
pub enum Count {
    // Where it is starting.
    First(Pattern),
    // Where it is starting or ongoing.
    Any(Pattern),
}

impl Count {
    pub fn pattern(&self) -> &Pattern
        ensures { result.now ≡ count_pattern self.now }
    {
        match self {
            Count::First(pattern) | Count::Any(pattern) => pattern,
        }
    }
}

// Of the uses that have these parameters, only those of these names are permitted.
#[derive(Drop)]
pub struct PermittedNames {
    pub names: Vec<Name>,
    pub having: Vec<Param>,
}

// Of the events of this name that have these parameters, only those with these values of one more parameter are permitted, and
// those without it.
#[derive(Drop)]
pub struct PermittedValues {
    pub param: Name,
    pub event: Name,
    pub values: Vec<Name>,
    pub having: Vec<Param>,
}

#[derive(Drop)]
pub enum Row {
    // A holds at every step before the first one with B, or at every step.
    Until(Test, Test),
    // A holds at every step.
    Always(Test),
    // A holds at step n.
    After(u16, Test),
    // A holds at some step below n.
    Within(u16, Test),
    // A holds at every step below n.
    During(u16, Test),
    // The counts never add up to more than l.
    Most(u16, Count),
    // Until B first holds, and in that very step, the counts do not add up to more than l; where B never holds, they never do.
    MostUntil(u16, Count, Test),
    // After each step v with A, B holds at some step from v to v + n - 1.
    Answer(u16, Test, Test),
    Names(PermittedNames),
    Values(PermittedValues),
}

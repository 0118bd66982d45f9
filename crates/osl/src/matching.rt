// Comparing names and parameters: which events a pattern matches.
ghost use Rattle.std.specs.Prelude.{◌≡◌};
ghost use Rattle.text.specs.Names.{name_bytes};
ghost use Rattle.osl.specs.Osl.{has, within_params};
ghost use Rattle.osl.specs.Terms.{as_pair, pair_words, pairs, words};
ghost use Rattle.osl.specs.Matching.{listed, matches as matching, carries, same_event?, stray_pair, strays as has_stray};

use crate::event::{Event, Pair, Param, Pattern};
use text::Name;

// Whether the name is one of these.
pub(crate) fn is_among(name: &Name, names: &[Name]) -> bool
    ensures { result ≡ listed (words names.now) (name_bytes name.now) }
{
    names.contains(name)
}

impl Param {
    pub fn pair(&self) -> Pair<'_>
        ensures { pair_words result ≡ as_pair self.now }
    {
        Pair {
            name: &self.name,
            value: &self.value,
        }
    }

    // Whether this is the parameter of that name, with a value that is not among these.
    fn strays(&self, name: &Name, values: &[Name]) -> bool
        ensures { result ≡ stray_pair (name_bytes name.now) (words values.now) (as_pair self.now) }
    {
        *name == self.name && !is_among(&self.value, values)
    }
}

// Whether the parameters have the one of that name, with that value.
fn has_pair(params: &[Param], pair: Pair) -> bool
    ensures { result ≡ has (pairs params.now) (pair_words pair.entry) }
{
    params.iter().any(|param| *pair.name == param.name && *pair.value == param.value)
}

// Whether the parameters have all of these.
pub(crate) fn has_all(params: &[Param], wanted: &[Param]) -> bool
    ensures { result ≡ within_params (pairs wanted.now) (pairs params.now) }
{
    wanted.iter().all(|param| has_pair(params, param.pair()))
}

// Whether the parameters have the one of that name with a value that is not among these.
pub(crate) fn has_stray(params: &[Param], name: &Name, values: &[Name]) -> bool
    ensures { result ≡ has_stray (name_bytes name.now) (words values.now) (pairs params.now) }
{
    params.iter().any(|param| param.strays(name, values))
}

impl Pattern {
    pub fn matches(&self, event: &Event) -> bool
        ensures { result ≡ matching self.now event.now }
    {
        self.name == event.name && has_all(&event.params, &self.params)
    }
}

impl Event {
    // Whether the event has the parameter of that name, with that value.
    pub fn carries(&self, pair: Pair) -> bool
        ensures { result ≡ carries self.now (pair_words pair.entry) }
    {
        has_pair(&self.params, pair)
    }

    // Whether it is the same event: of one name, and with the same parameters in any order. A derived `==` would heed the order.
    pub fn is(&self, other: &Event) -> bool
        ensures { result ≡ same_event? self.now other.now }
    {
        self.name == other.name
            && has_all(&self.params, &other.params)
            && has_all(&other.params, &self.params)
    }
}

// Whether what a row names is declared.
ghost use Rattle.std.specs.Prelude.{◌≡◌};
ghost use Rattle.std.specs.List.{list_all};
ghost use Rattle.text.specs.Names.{name_bytes};
ghost use Rattle.osl.specs.Terms.{as_pair, pair_words};
ghost use Rattle.limits.specs.Declaring.{named, carried, carried_anywhere, pattern_declared, test_declared, names_declared, values_declared, row_declared};

use osl::{Event, Pair, Param, Pattern, PermittedNames, PermittedValues, Row, Test};
use text::Name;

fn is_named(events: &[Event], name: &Name) -> bool
    ensures { result ≡ named events.now (name_bytes name.now) }
{
    events.iter().any(|event| *name == event.name)
}

fn is_carried(events: &[Event], name: &Name, pair: Pair) -> bool
    ensures { result ≡ carried events.now (name_bytes name.now) (pair_words pair.entry) }
{
    events
        .iter()
        .any(|event| *name == event.name && event.carries(pair))
}

fn is_carried_anywhere(events: &[Event], pair: Pair) -> bool
    ensures { result ≡ carried_anywhere events.now (pair_words pair.entry) }
{
    events.iter().any(|event| event.carries(pair))
}

fn are_carried(events: &[Event], name: &Name, params: &[Param]) -> bool
    ensures { result ≡ list_all (λ p. carried events.now (name_bytes name.now) (as_pair p)) params.now }
{
    params
        .iter()
        .all(|param| is_carried(events, name, param.pair()))
}

fn is_pattern_declared(events: &[Event], pattern: &Pattern) -> bool
    ensures { result ≡ pattern_declared events.now pattern.now }
{
    is_named(events, &pattern.name) && are_carried(events, &pattern.name, &pattern.params)
}

fn is_test_declared(events: &[Event], test: &Test) -> bool
    ensures { result ≡ test_declared events.now test.now }
{
    test.pattern()
        .is_none_or(|pattern| is_pattern_declared(events, pattern))
}

fn are_named(events: &[Event], names: &[Name]) -> bool
    ensures { result ≡ list_all (λ n. named events.now (name_bytes n)) names.now }
{
    names.iter().all(|name| is_named(events, name))
}

fn are_carried_anywhere(events: &[Event], params: &[Param]) -> bool
    ensures { result ≡ list_all (λ p. carried_anywhere events.now (as_pair p)) params.now }
{
    params
        .iter()
        .all(|param| is_carried_anywhere(events, param.pair()))
}

fn are_names_declared(events: &[Event], permit: &PermittedNames) -> bool
    ensures { result ≡ names_declared events.now permit.now }
{
    are_named(events, &permit.names) && are_carried_anywhere(events, &permit.having)
}

// Whether events of the permit's name carry each of its values.
fn are_values_carried(events: &[Event], permit: &PermittedValues) -> bool
    ensures { result ≡ list_all (λ v. carried events.now (name_bytes permit.now.event) (name_bytes permit.now.param, name_bytes v)) permit.now.values.items }
{
    let name = &permit.param;
    permit.values.iter().all(|value| is_carried(events, &permit.event, Pair { name, value }))
}

fn are_values_declared(events: &[Event], permit: &PermittedValues) -> bool
    ensures { result ≡ values_declared events.now permit.now }
{
    is_named(events, &permit.event)
        && are_values_carried(events, permit)
        && are_carried(events, &permit.event, &permit.having)
}

// Whether every name in the row is declared, and each parameter carried with its value.
pub(crate) fn is_row_declared(events: &[Event], row: &Row) -> bool
    ensures { result ≡ row_declared events.now row.now }
{
    match row {
        Row::Until(a, b) | Row::Answer(_, a, b) => {
            is_test_declared(events, a) && is_test_declared(events, b)
        }
        Row::Always(a) | Row::After(_, a) | Row::Within(_, a) | Row::During(_, a) => {
            is_test_declared(events, a)
        }
        Row::Most(_, counted) => is_pattern_declared(events, counted.pattern()),
        Row::MostUntil(_, counted, until) => {
            is_pattern_declared(events, counted.pattern()) && is_test_declared(events, until)
        }
        Row::Names(permit) => are_names_declared(events, permit),
        Row::Values(permit) => are_values_declared(events, permit),
    }
}

// The terms of the worked case.
use anyhow::Context;
use expression::Expression;
use osl::{Class, Count, Event, Param, Pattern, Row, Test};
use sheet::Sheet;
use std::alloc::Global;
use text::Name;

fn name(heap: Global, text: &str) -> anyhow::Result<Name> {
    Name::new(String::from_str(heap, text)?).context("this is no name")
}

// The parameter `object` with this value, alone.
fn object(heap: Global, value: &str) -> anyhow::Result<Vec<Param>> {
    let param = Param {
        name: name(heap, "object")?,
        value: name(heap, value)?,
    };
    Ok(vec![in heap; param]?)
}

fn play(heap: Global, value: &str) -> anyhow::Result<Event> {
    Ok(Event {
        name: name(heap, "play")?,
        class: Class::Use,
        params: object(heap, value)?,
    })
}

fn pay(heap: Global) -> anyhow::Result<Event> {
    Ok(Event {
        name: name(heap, "pay")?,
        class: Class::Other,
        params: Vec::new(heap),
    })
}

// Matches a payment.
fn any_pay(heap: Global) -> anyhow::Result<Pattern> {
    Ok(Pattern {
        name: name(heap, "pay")?,
        params: Vec::new(heap),
    })
}

// Matches a play of the series m.
fn play_of_m(heap: Global) -> anyhow::Result<Pattern> {
    Ok(Pattern {
        name: name(heap, "play")?,
        params: object(heap, "m")?,
    })
}

// Three events: the plays of m and of n, and `pay`. The first row is `mostuntil 1 first play,object=m first pay`, the second
// `within 3 first pay`, and the sheet keeps both.
pub fn worked_sheet(heap: Global) -> anyhow::Result<Sheet> {
    let events = vec![in heap; play(heap, "m")?, play(heap, "n")?, pay(heap)?]?;
    let plays = Row::MostUntil(
        1,
        Count::First(play_of_m(heap)?),
        Test::First(any_pay(heap)?),
    );
    let paid = Row::Within(3, Test::First(any_pay(heap)?));
    let rows = vec![in heap; plays, paid]?;
    let mut keep = Expression::blank();
    keep.read(b"and 1 2")?;
    Ok(Sheet::new(events, rows, keep)?)
}

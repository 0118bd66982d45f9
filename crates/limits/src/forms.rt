// What is asked of an event or a row by itself.
ghost use Rattle.std.specs.Prelude.{◌≡◌, nat_le};
ghost use Rattle.std.specs.List.{list_any};
ghost use Rattle.text.specs.Names.{name_bytes};
ghost use Rattle.limits.specs.Forms.{event_formed, row_formed, row_in_range, row_free, called, most_number};

use osl::{Event, Param, Row};
use text::Name;

const MOST_PARAMS: usize = 4;

const MOST_NUMBER: u16 = 1_000;

// Whether the event has at most four parameters.
pub(crate) fn is_event_formed(event: &Event) -> bool
    ensures { result ≡ event_formed event.now }
{
    event.params.len() <= MOST_PARAMS
}

// Whether a permit names something that is permitted.
pub(crate) fn is_row_formed(row: &Row) -> bool
    ensures { result ≡ row_formed row.now }
{
    match row {
        Row::Names(permit) => !permit.names.is_empty(),
        Row::Values(permit) => !permit.values.is_empty(),
        _ => true,
    }
}

fn is_in_range(n: u16) -> bool
    ensures { result ≡ nat_le n most_number }
{
    n <= MOST_NUMBER
}

// Whether the row's number is in range.
pub(crate) fn is_row_in_range(row: &Row) -> bool
    ensures { result ≡ row_in_range row.now }
{
    match row {
        Row::After(n, _) | Row::Most(n, _) | Row::MostUntil(n, _, _) => is_in_range(*n),
        Row::Within(n, _) | Row::During(n, _) | Row::Answer(n, _, _) => 0 < *n && is_in_range(*n),
        _ => true,
    }
}

fn is_fixed(name: &Name, params: &[Param]) -> bool
    ensures { result ≡ list_any (called (name_bytes name.now)) params.now }
{
    params.iter().any(|param| *name == param.name)
}

// Whether the row's other parameters leave the one free whose values are permitted.
pub(crate) fn is_row_free(row: &Row) -> bool
    ensures { result ≡ row_free row.now }
{
    match row {
        Row::Values(permit) => !is_fixed(&permit.param, &permit.having),
        _ => true,
    }
}

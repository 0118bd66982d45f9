// The record of an evening as text.
ghost use Rattle.std.specs.Prelude.{◌≡◌, ◌++◌, length, Some, IfOk, string_bytes};
ghost use Rattle.marks.specs.declared.record.Fault.TheVariants.{Memory};
ghost use Rattle.marks.specs.Records.{fault_text, last_line, list_lines, Records};

use std::alloc::{AllocError, Global};
use std::error::Error;
use std::fmt;
use watch::{MarkSet, Passed, Watcher, follow, stray};

// Why there is no record.
#[derive(Clone, Copy, PartialEq, Eq, Debug)]
pub enum Fault {
    // The letter at this place is beyond the alphabet, which has so many letters.
    Letter { place: usize, count: u16 },
    Memory,
}

// The letters stand on standard input, one to a line, and lines are counted from 1. Written out: what `thiserror`
// derives promises no text.
impl fmt::Display for Fault {
    ghost output = { λ fault. Some (fault_text fault) };

    fn fmt<W: fmt::Write>(&self, f: &mut fmt::Formatter<W>) -> fmt::Result {
        match *self {
            Fault::Letter { place, count } => {
                let line = place.saturating_add(1);
                write!(
                    f,
                    "standard input: line {line} is beyond the alphabet of {count} letters"
                )
            }
            Fault::Memory => f.write_str("there is not enough memory for the text"),
        }
    }
}

impl Error for Fault {}

impl From<AllocError> for Fault {
    ghost from_gives = { λ _ r. r ≡ Memory };

    fn from(_: AllocError) -> Fault {
        Fault::Memory
    }
}

// The whole text: a line for each step, and then the marks that appeared.
fn text_of(heap: Global, stands: &[Passed], appeared: MarkSet) -> Result<String, AllocError>
    ensures { IfOk result (λ text. string_bytes text ≡ list_lines stands.now (length stands.now) ++ last_line appeared.bits) }
{
    let mut text = String::new(heap);
    for (step, stand) in stands.iter().enumerate() {
        let Passed { state, shown } = *stand;
        writeln!(text, "step {step}: state {state}, marks {shown}")?;
    }
    writeln!(text, "appeared: {appeared}")?;
    Ok(text)
}

// The record of the evening. A stray letter is looked for first, since want of memory is said only where there is none.
pub fn record<W: Watcher>(heap: Global, watcher: &W, letters: &[u16]) -> Result<String, Fault>
    ensures { Records (W.watching watcher.now) letters.now result }
{
    let count = watcher.sizes().letters;
    if let Some(place) = stray(letters, count) {
        return Err(Fault::Letter { place, count });
    }
    let blank = Passed {
        state: 0,
        shown: MarkSet::EMPTY,
    };
    let mut room = vec![in heap; blank; letters.len()]?;
    let stands = room.as_mut_slice();
    let followed = follow(watcher, letters, stands);
    let appeared = followed.map_err(|place| Fault::Letter { place, count })?;
    Ok(text_of(heap, stands, appeared)?)
}

// The sizes at the head of a list: whether they are lawful, and whether the list is as long as they say.
ghost use Rattle.std.specs.Prelude.{◌≡◌, MatchOption};
ghost use Rattle.watch.specs.Sizes.{sizes_of};
ghost use Rattle.table.specs.Drawings.{drawn, Head, Sized};

use watch::{MOST_MARKS, Sizes, letter_count};

// The most states that a drawn table can have.
const MOST_STATES: u16 = 1024;

// The sizes at the head of the list, where they are lawful.
fn head(words: &[u16]) -> Option<Sizes>
    ensures { MatchOption result (Head words.now → ⊥) (λ sizes. Head words.now × (sizes ≡ sizes_of (drawn words.now))) }
{
    let [states, events, marks, ..] = *words else {
        return None;
    };
    let events = u8::try_from(events).ok()?;
    let marks = u8::try_from(marks).ok()?;
    // There is no such number where there are too many events.
    let letters = letter_count(events)?;
    let lawful = (1..=MOST_STATES).contains(&states)
        && 1 <= events
        && (1..=MOST_MARKS).contains(&marks);
    lawful.then_some(Sizes {
        states,
        events,
        letters,
        marks,
    })
}

// The sizes of the list, where they are lawful and the list has exactly the length that they say.
pub(crate) fn sizes_of(words: &[u16]) -> Option<Sizes>
    ensures { MatchOption result (Sized words.now → ⊥) (λ sizes. Sized words.now × (sizes ≡ sizes_of (drawn words.now))) }
{
    let sizes = head(words)?;
    let states = usize::from(sizes.states);
    let letters = usize::from(sizes.letters);
    (words.len() == 3 + states + states * letters).then_some(sizes)
}

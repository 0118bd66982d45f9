// The program's input as numbers.
ghost use Rattle.std.specs.Prelude.{◌-◌, ◌^◌};
ghost use Rattle.std.specs.Iterator.{IsFinite, UpTo};

use anyhow::{Error, anyhow};
use std::alloc::Global;

// The number that the word writes in decimal digits, if it fits 16 bits.
fn number(word: &str) -> Option<u16> {
    if word.starts_with('+') {
        return None;
    }
    word.parse().ok()
}

// The numbers that the parts of a text write. Of the first part that writes none, the fault is told by its place,
// counted from 1.
fn numbers<'a, I, F>(heap: Global, parts: I, fault: F) -> anyhow::Result<Vec<u16>>
where
    I: Iterator<Item = &'a str> + Drop,
    F: Fn(usize) -> Error,
    requires can { I.can_next parts }
    requires ends { IsFinite (I.remaining parts) }
    requires up_to { UpTo (I.remaining parts) (2 ^ 64 - 1) }
    requires tells { F.IsAlwaysCallable fault }
{
    // A `for`, since a chain of results would hand on an error's room with each number.
    let mut numbers = Vec::new(heap);
    for (place, part) in parts.enumerate() {
        let Some(n) = number(part) else {
            return Err(fault(place.saturating_add(1)));
        };
        numbers.push(n)?;
    }
    Ok(numbers)
}

// The words of a drawn table.
pub fn words_of(heap: Global, text: &str) -> anyhow::Result<Vec<u16>> {
    numbers(heap, text.split_ascii_whitespace(), |place| {
        anyhow!("table.txt: word {place} is no number from 0 to 65535")
    })
}

// The letters of an evening, one to a line.
pub fn letters_of(heap: Global, text: &str) -> anyhow::Result<Vec<u16>> {
    numbers(heap, text.lines(), |place| {
        anyhow!("standard input: line {place} is no letter")
    })
}

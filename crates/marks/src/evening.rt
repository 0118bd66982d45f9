// The whole text of an evening: the record and, where there is an expression, the words behind it.
ghost use Rattle.marks.specs.Evenings.{Evening};

use crate::record::{Fault, record};
use crate::words::words;
use expression::Expression;
use std::alloc::Global;
use watch::Watcher;

// The record of the evening and, where there is an expression, the words.
pub fn whole_text<W: Watcher + Drop>(
    heap: Global,
    watcher: W,
    expression: Option<Expression>,
    letters: &[u16],
) -> Result<String, Fault>
    ensures { Evening (W.watching watcher) letters.now result expression }
{
    let mut text = record(heap, &watcher, letters)?;
    let Some(expression) = expression else {
        return Ok(text);
    };
    let words = words(heap, watcher, expression, letters)?;
    text.push_str(words.as_str())?;
    Ok(text)
}

// The words of an evening as text.
ghost use Rattle.std.specs.Prelude.{◌≡◌, ◌++◌, IfOk, OnOk, string_bytes};
ghost use Rattle.expression.specs.Expressions.{formula};
ghost use Rattle.marks.specs.WordTexts.{change_line, Tells};

use expression::Expression;
use monitor::{Monitor, Word};
use std::alloc::{AllocError, Global};
use watch::{Step, Watcher};

// Writes the line of a step whose closing changed the word; nothing where the word stayed.
fn write_change(text: &mut String, step: usize, before: Word, word: Word) -> Result<(), AllocError>
    ensures { OnOk result (string_bytes text.new ≡ string_bytes text.old ++ change_line step before word) }
{
    if word == before {
        return Ok(());
    }
    writeln!(text, "{step} {word}")
}

// The word from new on, each step whose closing changed it, and how many steps are closed.
pub fn words<W: Watcher + Drop>(
    heap: Global,
    watcher: W,
    expression: Expression,
    letters: &[u16],
) -> Result<String, AllocError>
    ensures { IfOk result (λ text. Tells (W.watching watcher) (formula expression) letters.now (string_bytes text)) }
{
    let mut monitor = Monitor::open(watcher, expression);
    let (new, _) = monitor.verdict();
    let mut text = format!(in heap; "new {new}\n")?;
    let mut before = new;
    for (step, letter) in letters.iter().enumerate() {
        if let Err(refusal) = monitor.close_with(Step::of(*letter)) {
            writeln!(text, "refused {} line {}", refusal.number(), step + 1)?;
            return Ok(text);
        }
        let (word, _) = monitor.verdict();
        write_change(&mut text, step, before, word)?;
        before = word;
    }
    let (_, closed) = monitor.verdict();
    writeln!(text, "closed {closed}")?;
    Ok(text)
}

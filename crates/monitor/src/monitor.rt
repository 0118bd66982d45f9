// A monitor over a watcher and an expression: what is still possible after the steps that are closed.
//
// What can come of each state is worked out once, at opening; after that a closing is one step of the watcher, and a
// verdict is a look at two tables. Nothing here is on the heap, so nothing can fail for want of memory.
ghost use Rattle.std.specs.Prelude.{◌≡◌, false, length, is_ok};
ghost use Rattle.expression.specs.Expressions.{formula};
ghost use Rattle.monitor.specs.Words.{RightWord};
ghost use Rattle.monitor.specs.Plain.{Plain, opened, note_answer, close_answer, accepts};
ghost use Rattle.monitor.specs.inner.Standing.{Represents, Takes, Answers, Same};

use crate::calls::{Answer, Call};
use crate::refusal::Refusal;
use crate::running::Running;
use crate::word::Word;
use expression::Expression;
use outlook::{Outlook, outlook};
use watch::Watcher;

// The watcher and the expression stay as they are. Each method promises it as `same`: a fact of the type speaks of one
// value, and not of before and after.
#[derive(Drop)]
pub struct Monitor<W> {
    pub(crate) watcher: W,
    pub(crate) expression: Expression,
    pub(crate) outlook: Outlook,
    pub(crate) running: Running,
}

impl<W: Watcher> Monitor<W> {
    // A new monitor. Opening never refuses and never fails.
    pub fn open(watcher: W, expression: Expression) -> Monitor<W>
        ensures watcher { result.watcher ≡ watcher }
        ensures expression { result.expression ≡ expression }
        ensures stands { Represents (W.watching watcher) (formula expression) result opened }
    {
        let outlook = outlook(&watcher, &expression.truths());
        let running = Running::begin(watcher.start());
        Monitor {
            watcher,
            expression,
            outlook,
            running,
        }
    }

    // Notes an event in the step in progress, with kind 1 for starting or 2 for ongoing. It takes any number as a kind:
    // one that is none is refused, while a parameter of the type `Kind` would ask more of the caller.
    pub fn note(&mut self, event: u8, kind: u8) -> Result<(), Refusal>
        ensures same { Same self.old self.new }
        ensures unmoved { is_ok result ≡ false → self.new ≡ self.old }
        ensures takes { Takes (W.watching self.old.watcher) (formula self.old.expression) self.old (Call.Note event kind) (λ plain. note_answer (W.watching self.old.watcher).events plain event kind) result self.new }
    {
        self.running.note(self.watcher.sizes().events, event, kind)
    }

    // Closes the step in progress. An event without a note is absent in it.
    pub fn close(&mut self) -> Result<(), Refusal>
        ensures same { Same self.old self.new }
        ensures unmoved { is_ok result ≡ false → self.new ≡ self.old }
        ensures takes { Takes (W.watching self.old.watcher) (formula self.old.expression) self.old Call.Close close_answer result self.new }
    {
        self.running.close(&self.watcher)
    }

    // The word, and the number of closed steps.
    pub fn verdict(&self) -> (Word, u32)
        ensures { (plain : Plain) → Represents (W.watching self.now.watcher) (formula self.now.expression) self.now plain → (result.1 ≡ length plain.closed) × RightWord (W.watching self.now.watcher) (formula self.now.expression) plain.closed result.0 }
    {
        self.running.verdict(&self.outlook)
    }

    // Any call, and its answer. Only an accepted note or closing changes the monitor.
    pub fn call(&mut self, call: Call) -> Answer
        ensures same { Same self.old self.new }
        ensures unmoved { accepts result ≡ false → self.new ≡ self.old }
        ensures answers { Answers (W.watching self.old.watcher) (formula self.old.expression) self.old call result self.new }
    {
        match call {
            Call::Note(event, kind) => Answer::from(self.note(event, kind)),
            Call::Close => Answer::from(self.close()),
            Call::Ask => {
                let (word, closed) = self.verdict();
                Answer::Says(word, closed)
            }
        }
    }
}

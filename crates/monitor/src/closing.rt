// Closing a step with what its events did in it.
ghost use Rattle.expression.specs.Expressions.{formula};
ghost use Rattle.monitor.specs.Closing.{ClosesWith, Makes, closing, note_of};
ghost use Rattle.monitor.specs.inner.Standing.{Same};

use crate::monitor::Monitor;
use crate::refusal::Refusal;
use watch::{Kind, Step, Watcher};

impl<W: Watcher> Monitor<W> {
    // Notes the event, unless it is absent.
    fn note_kind(&mut self, event: u8, kind: Option<Kind>) -> Result<(), Refusal>
        ensures same { Same self.old self.new }
        ensures makes { Makes (W.watching self.old.watcher) (formula self.old.expression) self.old (note_of event kind) result self.new }
    {
        match kind {
            Some(kind) => self.note(event, u8::from(kind)),
            None => Ok(()),
        }
    }

    // Notes what the step says of each event, and closes the step in progress. The first refusal ends it, and the notes before it stay.
    pub fn close_with(&mut self, step: Step) -> Result<(), Refusal>
        ensures same { Same self.old self.new }
        ensures makes { Makes (W.watching self.old.watcher) (formula self.old.expression) self.old (closing step) result self.new }
        ensures closes { ClosesWith (W.watching self.old.watcher) (formula self.old.expression) self.old step result self.new }
    {
        for (event, kind) in step.kinds.iter().enumerate() {
            // There are five events, so the number of one fits.
            self.note_kind(event as u8, *kind)?;
        }
        self.close()
    }
}

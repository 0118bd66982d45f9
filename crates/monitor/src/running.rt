// What of a monitor changes with the calls.
ghost use Rattle.std.specs.Prelude.{◌≡◌, ℕ, ◌≤◌, false, ◌&&◌, ◌||◌, is_ok, ◌==◌, nat_lt};
ghost use Rattle.watch.specs.Letters.{most_events};
ghost use Rattle.watch.specs.Watchers.{Watching};
ghost use Rattle.outlook.specs.Outlooks.{at};
ghost use Rattle.monitor.specs.Plain.{Plain, opened, note_answer, close_answer, after};
ghost use Rattle.monitor.specs.inner.Running.{Follows, word_of};

use crate::calls::Call;
use crate::refusal::Refusal;
use crate::word::Word;
use outlook::Outlook;
use watch::{Kind, Step, Watcher};

// The most steps that can be closed.
const MOST_CLOSED: u32 = 1_000_000;

#[derive(Clone, Copy, PartialEq, Eq, Debug)]
pub struct Running {
    // The watcher's state after the closed steps.
    pub(crate) state: u16,
    // How many steps are closed.
    pub(crate) closed: u32,
    // The step in progress: an event is absent in it while it has no note.
    pub(crate) step: Step,
}

// The word at a state, by what can still come of it.
fn word_of(keepable: bool, breakable: bool) -> Word
    ensures { result ≡ word_of keepable breakable }
{
    match (keepable, breakable) {
        (false, _) => Word::Violated,
        (true, false) => Word::Satisfied,
        (true, true) => Word::Open,
    }
}

// What the table says of the state.
fn says(table: &[bool], state: u16) -> bool
    ensures { result ≡ at table.now state }
{
    table.get(usize::from(state)) == Some(&true)
}

impl Running {
    // Nothing is noted and nothing closed.
    pub(crate) fn begin(start: u16) -> Running
        ensures { (w : Watching) → start ≡ w.start → Follows w opened result }
    {
        Running {
            state: start,
            closed: 0,
            step: Step::QUIET,
        }
    }

    pub(crate) fn note(&mut self, events: u8, event: u8, kind: u8) -> Result<(), Refusal>
        requires { events ≤ most_events }
        ensures unmoved { is_ok result ≡ false → self.new ≡ self.old }
        ensures right { (w : Watching) (plain : Plain) → events ≡ w.events → Follows w plain self.old → (result ≡ note_answer events plain event kind) × Follows w (after events plain (Call.Note event kind)) self.new }
    {
        let kind = Kind::try_from(kind)?;
        if event >= events {
            return Err(Refusal::Event);
        }
        let place = usize::from(event);
        if self.step.kinds[place].is_some() {
            return Err(Refusal::Noted);
        }
        self.step.kinds[place] = Some(kind);
        Ok(())
    }

    pub(crate) fn close<W: Watcher>(&mut self, watcher: &W) -> Result<(), Refusal>
        ensures unmoved { is_ok result ≡ false → self.new ≡ self.old }
        ensures right { (plain : Plain) → Follows (W.watching watcher.now) plain self.old → (result ≡ close_answer plain) × Follows (W.watching watcher.now) (after (W.watching watcher.now).events plain Call.Close) self.new }
    {
        if self.closed >= MOST_CLOSED {
            return Err(Refusal::Steps);
        }
        let next = watcher.next(self.state, self.step.letter());
        self.state = next;
        self.closed += 1;
        self.step = Step::QUIET;
        Ok(())
    }

    // The word, by what can still come of the state, and the number of closed steps.
    pub(crate) fn verdict(&self, outlook: &Outlook) -> (Word, u32)
        ensures word { result.0 ≡ word_of (at outlook.now.keepable self.now.state) (at outlook.now.breakable self.now.state) }
        ensures closed { result.1 ≡ self.now.closed }
    {
        let keepable = says(&outlook.keepable, self.state);
        let breakable = says(&outlook.breakable, self.state);
        (word_of(keepable, breakable), self.closed)
    }
}

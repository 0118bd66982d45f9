// Monitors over sheets: what the terms mean, and what the word says of them, in OSL alone.
ghost use Rattle.std.specs.Prelude.{◌≡◌, min, length, take, drop};
ghost use Rattle.expression.specs.Expressions.{formula};
ghost use Rattle.monitor.specs.Plain.{Plain, opened, AgreesBy};
ghost use Rattle.monitor.specs.inner.Standing.{Represents};
ghost use Rattle.sheet.specs.Joints.{watched};
ghost use Rattle.sheet.specs.Meaning.{Means};
ghost use Rattle.sheet.specs.Sheets.{events_of, rows_of, keep_of};
ghost use Rattle.sheet.specs.Words.{RightWordOfRows};

use crate::sheet::Sheet;
use monitor::{Answer, Call, Monitor, Word, answer_all};

impl Sheet {
    // A new monitor over the sheet. On every run the sheet's marks tell which of its rows OSL calls true.
    pub fn open(self) -> Monitor<Sheet>
        ensures sheet { result.watcher ≡ self }
        ensures keep { result.expression ≡ self.keep }
        ensures stands { Represents (watched (events_of self) (rows_of self)) (keep_of self) result opened }
        ensures means { Means (events_of self) (rows_of self) (keep_of self) }
    {
        let keep = self.keep;
        Monitor::open(self, keep)
    }

    // Puts the calls to a new monitor over the sheet and writes its answers, as many as both slices hold; answers how many. What is
    // behind them stays. Each word says what OSL says of the endless traces that begin with the closed steps.
    pub fn answer(self, calls: &[Call], answers: &mut [Answer]) -> usize
        ensures count { result ≡ min (length calls.now) (length answers.old) }
        ensures agrees { AgreesBy (length (events_of self)) (RightWordOfRows (events_of self) (rows_of self) (keep_of self)) opened (take result calls.now) (take result answers.new) }
        ensures rest { drop result answers.new ≡ drop result answers.old }
    {
        let keep = self.keep;
        answer_all(self, keep, calls, answers)
    }
}

// The word of a monitor over a sheet, and the number of closed steps.
pub fn verdict(monitor: &Monitor<Sheet>) -> (Word, u32)
    ensures { (plain : Plain) → Represents (watched (events_of monitor.now.watcher) (rows_of monitor.now.watcher)) (formula monitor.now.expression) monitor.now plain → (result.1 ≡ length plain.closed) × RightWordOfRows (events_of monitor.now.watcher) (rows_of monitor.now.watcher) (formula monitor.now.expression) plain.closed result.0 }
{
    monitor.verdict()
}

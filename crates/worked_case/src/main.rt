// Makes the sheet of a worked case, puts an evening to a monitor over it, and prints each word and the marks.
//
// The series m may be played once until it is paid, the hour of the payment counted, and it has to be paid within three
// hours. In hour 1 it is played a second time, and paid only then.
#![tactic(auto)]

mod terms;

use sheet::{Sheet, verdict};
use terms::worked_sheet;
use watch::{Kind, MarkSet, Step, Watcher};

const HOURS: usize = 4;

// An hour by what `play` of m, `play` of n and `pay` do in it.
fn hour(m: Option<Kind>, n: Option<Kind>, pay: Option<Kind>) -> Step {
    Step {
        kinds: [m, n, pay, None, None],
    }
}

fn evening() -> [Step; HOURS] {
    let starting = Some(Kind::Starting);
    [
        hour(starting, None, None),
        hour(starting, None, starting),
        hour(Some(Kind::Ongoing), None, None),
        hour(None, starting, None),
    ]
}

// The marks that the sheet shows after each hour.
fn marks_of(sheet: &Sheet, evening: [Step; HOURS]) -> [MarkSet; HOURS] {
    let mut state = sheet.start();
    evening.map(|step| {
        state = sheet.next(state, step.letter());
        sheet.shown(state)
    })
}

fn run(rt: &HostRuntime) -> anyhow::Result<()> {
    let heap = rt.alloc();
    let sheet = worked_sheet(heap)?;
    let evening = evening();
    let marks = marks_of(&sheet, evening);
    let mut monitor = sheet.open();
    println!(rt; "new {}", verdict(&monitor).0)?;
    for (hour, (step, shown)) in evening.iter().zip(marks.iter()).enumerate() {
        monitor.close_with(*step)?;
        println!(rt; "step {hour}: {}, marks {shown}", verdict(&monitor).0)?;
    }
    println!(rt; "closed {}", verdict(&monitor).1)?;
    Ok(())
}

fn main(rt: HostRuntime) -> anyhow::Result<()> {
    run(&rt)
}

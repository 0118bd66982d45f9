// Closing steps: the notes of each step, its closing, and the word after it.
use anyhow::anyhow;
use expression::Expression;
use monitor::{Monitor, Word};
use std::time::Instant;
use watch::{Step, Watcher};

// Over two tables of 100 states the word changes late in a million steps.
const SEED: u32 = 12;

// What both programs must agree on, and the time that it took.
#[derive(Clone, Copy)]
pub struct Closed {
    // After how many steps the word was still open.
    pub open: u32,
    pub nanos: u128,
}

// The next number of a simple generator.
fn stirred(seed: u32) -> u32 {
    seed.wrapping_mul(1_103_515_245).wrapping_add(12_345)
}

// Closes so many steps of a monitor over the watcher, for term 1.
pub fn time_closings<W: Watcher + Drop>(
    rt: &HostRuntime,
    watcher: W,
    times: u32,
) -> anyhow::Result<Closed> {
    let letters = u32::from(watcher.sizes().letters).max(1);
    let mut monitor = Monitor::open(watcher, Expression::blank());
    let mut open = 0u32;
    let mut seed = SEED;
    let begun = Instant::now(rt)?;
    for _ in 0..times {
        seed = stirred(seed);
        monitor
            .close_with(Step::of(((seed >> 16) % letters) as u16))
            .map_err(|_| anyhow!("a note or a closing was refused"))?;
        if let (Word::Open, _) = monitor.verdict() {
            open = open.wrapping_add(1);
        }
    }
    let nanos = begun.elapsed(rt)?.as_nanos();
    Ok(Closed { open, nanos })
}

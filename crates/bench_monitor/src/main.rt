// Times the opening of monitors and the closing of steps, over watchers of several shapes.
//
// Each argument is a case: a kind of work, a number of states and how often, as `up,1000,5`. For each case what came
// of it is printed, and the shortest time that it took on standard error, in nanoseconds.
#![tactic(auto)]

mod case;
mod closing;
mod computed;
mod drawn;
mod opening;
mod shape;

use anyhow::Context;
use case::{Case, Kind};
use closing::time_closings;
use computed::Computed;
use drawn::drawn;
use opening::{Opened, time_opening};
use piles::Pair;
use shape::Shape;
use std::alloc::Global;
use std::env;
use table::Table;

fn computed_of(shape: Shape, states: u16) -> anyhow::Result<Computed> {
    Computed::new(shape, states).context("no watcher has so many states")
}

fn drawn_of(heap: Global, shape: Shape, states: u16) -> anyhow::Result<Table> {
    drawn(heap, &computed_of(shape, states)?)
}

fn pair_of(heap: Global, states: u16) -> anyhow::Result<Pair<Table, Table>> {
    let first = drawn_of(heap, Shape::Late, states)?;
    let second = drawn_of(heap, Shape::Mixed, states)?;
    Ok(Pair::new(first, second))
}

// Opens one monitor.
fn open_once(rt: &HostRuntime, case: Case) -> anyhow::Result<Opened> {
    let heap = rt.alloc();
    match case.kind {
        Kind::Computed(shape) => time_opening(rt, computed_of(shape, case.states)?),
        Kind::Drawn(shape) => time_opening(rt, drawn_of(heap, shape, case.states)?),
        Kind::Pair | Kind::Close => time_opening(rt, pair_of(heap, case.states)?),
    }
}

// Opens as many monitors as the case says, and prints what the last one and the quickest have.
fn open_all(rt: &HostRuntime, case: Case) -> anyhow::Result<()> {
    let mut last = open_once(rt, case)?;
    let mut least = last.nanos;
    for _ in 1..case.times {
        last = open_once(rt, case)?;
        least = least.min(last.nanos);
    }
    println!(rt;
        "keepable {}, breakable {}, {}",
        last.keepable, last.breakable, last.word
    )?;
    eprintln!(rt; "{least}")?;
    Ok(())
}

// Closes as many steps as the case says.
fn close_all(rt: &HostRuntime, case: Case) -> anyhow::Result<()> {
    let pair = pair_of(rt.alloc(), case.states)?;
    let closed = time_closings(rt, pair, case.times)?;
    println!(rt; "open after {} steps", closed.open)?;
    eprintln!(rt; "{}", closed.nanos)?;
    Ok(())
}

fn run(rt: &HostRuntime) -> anyhow::Result<()> {
    for word in env::args(rt)?.skip(1) {
        let case: Case = word.parse()?;
        match case.kind {
            Kind::Close => close_all(rt, case)?,
            _ => open_all(rt, case)?,
        }
    }
    Ok(())
}

fn main(rt: HostRuntime) -> anyhow::Result<()> {
    run(&rt)
}

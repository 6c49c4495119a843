// Runs of visits, and their times.
use crate::loads::{Kind, Load};
use crate::tally::Tally;
use anyhow::anyhow;
use class::compartments::Compartments;
use engine::visit::Visit;
use host::calls::Host;
use page::ladder::Ladder;
use regime::rules::Regime;
use std::io;
use std::time::Instant;

// What the call answers, and how many nanoseconds it takes. That a call can be called is asked wherever one is handed on: no
// type of this crate holds it.
pub(crate) fn timed<T: Drop, F: FnOnce() -> T>(rt: &HostRuntime, call: F) -> io::Result<(T, u128)>
    requires { F.IsAlwaysCallable call }
{
    let start = Instant::now(rt)?;
    let answer = call();
    Ok((answer, start.elapsed(rt)?.as_nanos()))
}

// Takes everything from the channel.
fn empty<H: Host>(host: &mut H, channel: u8) {
    for _ in 0..host.held(channel).unwrap_or(0) {
        let _ = host.take(channel);
    }
}

// The same of each channel that the scripts have.
fn empty_all<H: Host>(host: &mut H) {
    for channel in 0..4 {
        empty(host, channel);
    }
}

// The world comes by: it feeds both in channels and collects from both out channels. Here and below a visit and what it
// answered: the visit ends before the tally does, so no struct holds both.
fn come_by<R: Regime, H: Host>(visit: &mut Visit<R, H>, value: i32, tally: &mut Tally) {
    tally.feed(visit.feed(0, value));
    tally.collect(visit.collect(1));
    tally.feed(visit.feed(2, value));
    tally.collect(visit.collect(3));
}

fn take_turns<R: Regime, H: Host>(visit: &mut Visit<R, H>, turns: usize, tally: &mut Tally) {
    for _ in 0..turns {
        tally.turn(visit.turn());
    }
}

// The turns of one visit.
fn drive<R: Regime, H: Host>(visit: &mut Visit<R, H>, load: &Load, tally: &mut Tally) {
    for (first, value) in (0..load.turns).step_by(load.pace).zip(1..=i32::MAX) {
        come_by(visit, value, tally);
        let left = load.turns.saturating_sub(first);
        take_turns(visit, load.pace.min(left), tally);
    }
}

// All visits of a load, one after another, with the host of the one before.
fn run<R: Regime + Copy, H: Host + Drop>(load: &Load, regime: R, host: H) -> (Tally, H) {
    let mut tally = Tally::default();
    let mut host = host;
    for _ in 0..load.visits {
        empty_all(&mut host);
        let mut visit = Visit::open(load.script, regime, host);
        drive(&mut visit, load, &mut tally);
        let (_, _, back) = visit.end();
        host = back;
    }
    (tally, host)
}

// What is measured: one kind of load, with so many turns in all, over the host of that name. The host is no part of it: it
// is handed on from run to run, and a task is `Copy`.
#[derive(Clone, Copy)]
struct Task<'a> {
    kind: Kind,
    host: &'a str,
    turns: usize,
}

// Runs it under the regime of that name, and tells the counts and the time.
fn measure<R: Regime + Copy, H: Host + Drop>(
    rt: &HostRuntime,
    task: Task<'_>,
    name: &str,
    regime: R,
    host: H,
) -> anyhow::Result<H> {
    let Task {
        kind,
        host: host_name,
        turns,
    } = task;
    let levels = regime.levels();
    let load = Load::of(kind, levels, turns).map_err(|_| anyhow!(
        "a load's script is not accepted"
    ))?;
    let ((tally, host), nanos) = timed(rt, || run(&load, regime, host))?;
    println!(rt; "{kind} {host_name} {name} {levels} {tally}")?;
    eprintln!(rt; "{kind} {host_name} {name} {levels} {turns} {nanos}")?;
    Ok(host)
}

// The task under both regimes, with 2 to the power of `marks` levels.
fn measure_levels<H: Host + Drop>(
    rt: &HostRuntime,
    task: Task<'_>,
    marks: u8,
    host: H,
) -> anyhow::Result<H> {
    let compartments = Compartments::new(marks);
    let ladder = Ladder::new(compartments.levels());
    let host = measure(rt, task, "ladder", ladder, host)?;
    measure(rt, task, "compartments", compartments, host)
}

// The task at 1, 2, 4, 8 and 16 levels.
fn measure_task<H: Host + Drop>(rt: &HostRuntime, task: Task<'_>, host: H) -> anyhow::Result<H> {
    let mut host = host;
    for marks in 0..5 {
        host = measure_levels(rt, task, marks, host)?;
    }
    Ok(host)
}

// Loads of these kinds over this host.
pub fn measure_host<H: Host + Drop>(
    rt: &HostRuntime,
    name: &str,
    kinds: &[Kind],
    turns: usize,
    host: H,
) -> anyhow::Result<()> {
    let mut host = host;
    for kind in kinds {
        let task = Task {
            kind: *kind,
            host: name,
            turns,
        };
        host = measure_task(rt, task, host)?;
    }
    Ok(())
}

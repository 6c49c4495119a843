// How fast the engine is. Sizes, counts and sums go to standard output, which is thus the same in every run; times go to
// standard error.
#![tactic(auto)]

mod files;
mod loads;
mod runs;
mod tally;

use class::compartments::Compartments;
use engine::visit::Visit;
use files::measure_files;
use house::Entry;
use house::order_map::OrderMap;
use house::strips::StripHost;
use loads::Kind;
use page::ladder::Ladder;
use page::slots::SlotHost;
use runs::measure_host;
use std::{env, io};

// Turns of each run: a visit's whole budget if an argument is `full`, or few, for the gate.
fn turns_asked(rt: &HostRuntime) -> io::Result<usize> {
    let full = env::args(rt)?.skip(1).any(|word| word.as_str() == "full");
    Ok(if full { 1_000_000 } else { 50_000 })
}

// The bytes are a parameter, and no regime and no host: the borrow checker does not cover `size_of` of a type parameter.
fn tell_size(rt: &HostRuntime, name: &str, host: &str, bytes: usize) -> io::Result<()> {
    println!(rt; "bytes {name} {host} {bytes}")
}

// The bytes of a visit over the slot host, under each regime.
fn tell_slot_sizes(rt: &HostRuntime) -> io::Result<()> {
    tell_size(rt, "ladder", "slots", size_of::<Visit<Ladder, SlotHost>>())?;
    tell_size(
        rt,
        "compartments",
        "slots",
        size_of::<Visit<Compartments, SlotHost>>(),
    )?;
    tell_size(rt, "map", "slots", size_of::<Visit<OrderMap, SlotHost>>())
}

// The same over the strip host: what it is lent comes on top.
fn tell_strip_sizes(rt: &HostRuntime) -> io::Result<()> {
    tell_size(
        rt,
        "ladder",
        "strip",
        size_of::<Visit<Ladder, StripHost<'_>>>(),
    )?;
    tell_size(
        rt,
        "compartments",
        "strip",
        size_of::<Visit<Compartments, StripHost<'_>>>(),
    )?;
    tell_size(
        rt,
        "map",
        "strip",
        size_of::<Visit<OrderMap, StripHost<'_>>>(),
    )
}

// Every load over the slot host.
fn measure_slots(rt: &HostRuntime, turns: usize) -> anyhow::Result<()> {
    let kinds = [Kind::Compute, Kind::Exchange, Kind::Visits];
    measure_host(rt, "slots", &kinds, turns, SlotHost::new())
}

// Long visits over a strip of 16 channels with 32 values each, as the slot host has.
fn measure_strip(rt: &HostRuntime, turns: usize) -> anyhow::Result<()> {
    let mut entries = [Entry {
        channel: 0,
        value: 0,
    }; 512];
    let kinds = [Kind::Compute, Kind::Exchange];
    measure_host(rt, "strip", &kinds, turns, StripHost::new(&mut entries, 16))
}

fn run(rt: &HostRuntime) -> anyhow::Result<()> {
    let turns = turns_asked(rt)?;
    tell_slot_sizes(rt)?;
    tell_strip_sizes(rt)?;
    measure_slots(rt, turns)?;
    measure_strip(rt, turns)?;
    measure_files(rt, turns / 200)
}

fn main(rt: HostRuntime) -> anyhow::Result<()> {
    run(&rt)
}

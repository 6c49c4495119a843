// A maker's main loop over the package Page: what the reader does goes to the script, and its report comes out. It stands
// alone, as the loops over Class and House do.
#![tactic(auto)]

use page::ladder::Ladder;
use page::slots::SlotHost;
use page::{Moved, Refusal, Script, Visit, read_script};
use std::io;

// A lesson. Level 0 is the publisher's, level 1 the reader's own. Channel 0 hears page turns, 1 answers, 2 margin notes;
// 3 is the report to the publisher and 4 the margin. The script tries to put the note into the report.
const BOOK: [u8; 50] =
    *b"\x02\x05\x00\x00\x02\x01\x01\x01\x03\x01\x01\x09\x00\x01\x0a\x43\x0a\x01\x02\x43\x0a\x02\x01\x13\x01\x03\x2a\x00\x00\x00\x0f\x08\x04\x02\x03\x41\x0b\x03\x45\x0b\x04\x03\x45\x0b\x01\x03\x45\x0b\x01\x04";

// What the reader does, in order: a channel and a value.
const DAY: [(u8, i32); 3] = [(0, 12), (2, 777), (1, 42)];

// How many turns the device gives after each event.
const TURNS: u32 = 10;

type Lesson = Visit<Ladder, SlotHost>;

// A turn that moved nobody is nothing to tell: one case of three.
fn tell_move(rt: &HostRuntime, turned: Result<Option<Moved>, Refusal>) -> io::Result<()> {
    match turned {
        Ok(Some(Moved { level, act })) => println!(rt; "level {level}: act {}", act.number()),
        Ok(None) => Ok(()),
        Err(refusal) => println!(rt; "refused {}", refusal.number()),
    }
}

fn serve(rt: &HostRuntime, visit: &mut Lesson, channel: u8, value: i32) -> io::Result<()> {
    if let Err(refusal) = visit.feed(channel, value) {
        println!(rt; "channel {channel} refuses: {}", refusal.number())?;
    }
    for _ in 0..TURNS {
        tell_move(rt, visit.turn())?;
    }
    Ok(())
}

// The report is sent on until there is no more of it. A channel holds at most 32 values: a `while` would have to show that
// it ends.
fn report(rt: &HostRuntime, visit: &mut Lesson) -> io::Result<()> {
    for _ in 0..32 {
        match visit.collect(3) {
            Ok(value) => println!(rt; "report: {value}")?,
            Err(_) => return Ok(()),
        }
    }
    Ok(())
}

fn teach(rt: &HostRuntime, script: Script) -> io::Result<()> {
    let mut visit = Visit::open(script, Ladder::new(2), SlotHost::new());
    for (channel, value) in DAY {
        serve(rt, &mut visit, channel, value)?;
    }
    report(rt, &mut visit)
}

fn main(rt: HostRuntime) -> io::Result<()> {
    match read_script(&BOOK) {
        Ok(script) => teach(&rt, script),
        Err(fault) => println!(rt; "the book is refused: {}", fault.refusal.number()),
    }
}

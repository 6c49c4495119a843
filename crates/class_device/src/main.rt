// A maker's main loop over the package Class: a book for a family, with levels in compartments. It stands alone, as a maker's
// would: what it has in common with the loop over Page is written again.
#![tactic(auto)]

use class::compartments::Compartments;
use class::slots::SlotHost;
use class::{Script, Visit, read_script};
use std::io;

// Level 0 is the publisher's, 1 the teacher's, 2 the parents', 3 the child's, to whom all flows. Channel 1 hears what the
// teacher says of the exercise and 2 what the parents say; the script adds both and writes the sum to everybody.
const BOOK: [u8; 51] =
    *b"\x04\x07\x00\x02\x01\x02\x02\x01\x01\x03\x01\x01\x03\x01\x02\x03\x01\x03\x08\x00\x01\x0a\x43\x0a\x01\x01\x43\x0a\x02\x02\x0f\x02\x03\x01\x02\x45\x0b\x03\x03\x45\x0b\x03\x04\x45\x0b\x03\x05\x45\x0b\x03\x06";

// Who reads which channel.
const READERS: [(u8, &str); 4] = [
    (3, "publisher"),
    (4, "teacher"),
    (5, "parents"),
    (6, "child"),
];

// What is said on which channel.
const SAID: [(u8, i32); 3] = [(0, 1), (1, 30), (2, 12)];

type Exercise = Visit<Compartments, SlotHost>;

fn feed(rt: &HostRuntime, visit: &mut Exercise) -> io::Result<()> {
    for (channel, value) in SAID {
        if let Err(refusal) = visit.feed(channel, value) {
            println!(rt; "channel {channel} refuses: {}", refusal.number())?;
        }
    }
    Ok(())
}

// Each of the four levels comes up every fourth turn; eight instructions each.
fn run(visit: &mut Exercise) {
    for _ in 0..32 {
        let _ = visit.turn();
    }
}

fn tell(rt: &HostRuntime, visit: &mut Exercise) -> io::Result<()> {
    for (channel, reader) in READERS {
        match visit.collect(channel) {
            Ok(value) => println!(rt; "{reader}: {value}")?,
            Err(refusal) => println!(rt; "{reader}: refused {}", refusal.number())?,
        }
    }
    Ok(())
}

fn share(rt: &HostRuntime, script: Script) -> io::Result<()> {
    let mut visit = Visit::open(script, Compartments::new(2), SlotHost::new());
    feed(rt, &mut visit)?;
    run(&mut visit);
    tell(rt, &mut visit)
}

fn main(rt: HostRuntime) -> io::Result<()> {
    match read_script(&BOOK) {
        Ok(script) => share(&rt, script),
        Err(fault) => println!(rt; "the book is refused: {}", fault.refusal.number()),
    }
}

// A maker's main loop over the package House, where a strip of the maker's own entries is all the memory of a visit. It shows
// what the entries hold after each call; the contracts of `slices` say what that is.
#![tactic(auto)]

mod rows;
mod slices;

use crate::slices::{hear, hear_all, keep, move_on, open_on, send_on, shown};
use house::ladder::Ladder;
use house::{Act, Entry, Moved, Refusal, Script, read_script};
use std::io;

// Level 0 is the publisher's and 1 the reader's own. Channel 0 hears page turns and 1 margin notes; 2 is the report to the
// publisher. The script takes a page and a note, and reports the page.
const BOOK: [u8; 20] =
    *b"\x02\x03\x00\x02\x01\x01\x01\x03\x00\x03\x0a\x01\x43\x0a\x02\x01\x45\x0b\x01\x02";

fn entry(channel: u8, value: i32) -> Entry {
    Entry { channel, value }
}

fn show(rt: &HostRuntime, entries: &[Entry]) -> io::Result<()> {
    print!(rt; "entries")?;
    for entry in entries {
        print!(rt; " {}:{}", entry.channel, entry.value)?;
    }
    println!(rt; "")
}

fn tell(rt: &HostRuntime, heard: Result<(), Refusal>) -> io::Result<()> {
    match heard {
        Ok(()) => println!(rt; "heard"),
        Err(refusal) => println!(rt; "refused {}", refusal.number()),
    }
}

fn tell_turn(rt: &HostRuntime, turned: Result<Option<Moved>, Refusal>) -> io::Result<()> {
    match turned {
        Ok(Some(Moved { act, .. })) => match act {
            Act::Took { channel, value } => println!(rt; "took {channel}:{value}"),
            Act::Wrote { channel, value } => println!(rt; "wrote {channel}:{value}"),
            _ => println!(rt; "act {}", act.number()),
        },
        Ok(None) => println!(rt; "nobody"),
        Err(refusal) => println!(rt; "refused {}", refusal.number()),
    }
}

fn tell_report(rt: &HostRuntime, sent: Result<i32, Refusal>) -> io::Result<()> {
    match sent {
        Ok(page) => println!(rt; "report {page}"),
        Err(refusal) => println!(rt; "refused {}", refusal.number()),
    }
}

// A visit that hears a page and notes, runs, and reports.
fn serve(rt: &HostRuntime, entries: &mut [Entry], script: Script) -> io::Result<()> {
    let mut visit = open_on(entries, script, Ladder::new(2));
    show(rt, shown(&visit))?;
    tell(rt, hear(&mut visit, entry(0, 12)))?;
    tell(rt, hear(&mut visit, entry(2, 13)))?;
    show(rt, shown(&visit))?;
    let heard = hear_all(&mut visit, &[entry(1, 70), entry(1, 71), entry(1, 72)]);
    println!(rt; "heard {heard}")?;
    show(rt, shown(&visit))?;
    for _ in 0..5 {
        tell_turn(rt, move_on(&mut visit))?;
        show(rt, shown(&visit))?;
    }
    tell_report(rt, send_on(&mut visit, 2))?;
    show(rt, shown(&visit))
}

// A short visit after it, over the same entries, of which a copy of four is kept.
fn serve_again(rt: &HostRuntime, entries: &mut [Entry], script: Script) -> io::Result<()> {
    let mut kept = [entry(0, 0); 4];
    let said = [entry(1, 80), entry(0, 14)];
    let heard = keep(entries, script, Ladder::new(2), &said, &mut kept);
    println!(rt; "heard {heard}")?;
    show(rt, &kept)
}

fn main(rt: HostRuntime) -> io::Result<()> {
    let mut entries = [
        entry(9, 1),
        entry(9, 2),
        entry(9, 3),
        entry(9, 4),
        entry(9, 5),
        entry(9, 6),
    ];
    match read_script(&BOOK) {
        Ok(script) => {
            serve(&rt, &mut entries, script)?;
            serve_again(&rt, &mut entries, script)
        }
        Err(fault) => println!(rt; "the book is refused: {}", fault.refusal.number()),
    }
}

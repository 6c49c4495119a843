// A maker's main loop over the package House: two publishers that may not hear of each other, by an order map, over a host
// of the maker's own. It stands alone, as the loops over Page and Class do.
#![tactic(auto)]

use house::order_map::OrderMap;
use house::{Refusal, Script, Visit, read_script};
use own_host::lanes::HeapHost;
use own_host::lanes::build::Unmade;
use std::io;

// Levels 0 and 1 are the publishers', 2 is the reader's. Channel 0 hears the first publisher and 1 the second; the script
// adds what they say and writes the sum to each of the three.
const BOOK: [u8; 37] =
    *b"\x03\x05\x00\x02\x01\x01\x01\x03\x01\x01\x03\x01\x02\x06\x00\x01\x0a\x43\x0a\x01\x01\x0b\x02\x02\x01\x45\x0b\x02\x02\x45\x0b\x02\x03\x45\x0b\x02\x04";

// Both publishers flow to the reader, and neither to the other.
const ROWS: [u16; 16] = [1, 2, 7, 0, 0, 0, 0, 0, 0, 0, 0, 0, 0, 0, 0, 0];

// The channels' capacities: this host keeps them on the heap.
const CAPACITIES: [usize; 5] = [4, 4, 2, 2, 2];

// What the publishers say: a channel and a value.
const SAID: [(u8, i32); 2] = [(0, 5), (1, 70)];

type Survey = Visit<OrderMap, HeapHost>;

// It is not made where memory is wanting.
fn host(rt: &HostRuntime) -> Result<HeapHost, Unmade> {
    let mut host = HeapHost::new(rt.alloc());
    for capacity in CAPACITIES {
        host.add(rt.alloc(), capacity, &[])?;
    }
    Ok(host)
}

fn tell(rt: &HostRuntime, who: &str, answer: Result<i32, Refusal>) -> io::Result<()> {
    match answer {
        Ok(value) => println!(rt; "{who}: {value}"),
        Err(refusal) => println!(rt; "{who}: refused {}", refusal.number()),
    }
}

fn feed(rt: &HostRuntime, visit: &mut Survey) -> io::Result<()> {
    for (channel, value) in SAID {
        if let Err(refusal) = visit.feed(channel, value) {
            println!(rt; "channel {channel} refuses: {}", refusal.number())?;
        }
    }
    Ok(())
}

// Each of the three levels comes up every third turn; six instructions each.
fn run(visit: &mut Survey) {
    for _ in 0..18 {
        let _ = visit.turn();
    }
}

fn serve(rt: &HostRuntime, script: Script, map: OrderMap, host: HeapHost) -> io::Result<()> {
    let mut visit = Visit::open(script, map, host);
    feed(rt, &mut visit)?;
    run(&mut visit);
    tell(rt, "first publisher", visit.collect(2))?;
    tell(rt, "second publisher", visit.collect(3))?;
    tell(rt, "reader", visit.collect(4))
}

fn main(rt: HostRuntime) -> io::Result<()> {
    let Ok(host) = host(&rt) else {
        return println!(rt; "no memory");
    };
    let Ok(map) = OrderMap::new(3, ROWS) else {
        return println!(rt; "the levels are refused");
    };
    match read_script(&BOOK) {
        Ok(script) => serve(&rt, script, map, host),
        Err(fault) => println!(rt; "the book is refused: {}", fault.refusal.number()),
    }
}

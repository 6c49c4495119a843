// Levels and the questions about them.
use crate::tell::tell;
use class::compartments::Compartments;
use house::any_regime::AnyRegime;
use house::order_map::OrderMap;
use page::ladder::Ladder;
use refusal::Refusal;
use regime::ready::ReadySet;
use regime::rules::Regime;
use std::io;
use text::number::capped_byte;

pub fn ladder(n: usize) -> AnyRegime {
    AnyRegime::Ladder(Ladder::new(capped_byte(n)))
}

pub fn compartments(k: usize) -> AnyRegime {
    AnyRegime::Compartments(Compartments::new(capped_byte(k)))
}

pub fn map(n: usize, rows: [u16; 16]) -> Result<AnyRegime, Refusal> {
    OrderMap::new(capped_byte(n), rows).map(AnyRegime::Map)
}

// Keeps the levels that were made and prints how many they are; a refusal leaves those that were made before.
pub fn make_levels(
    rt: &HostRuntime,
    levels: &mut Option<AnyRegime>,
    made: Result<AnyRegime, Refusal>,
) -> io::Result<()> {
    let count = made.map(|regime| levels.insert(regime).levels());
    tell(rt, "levels", count)
}

// Prints whether the first level flows to the second. The guard stands here and in `tell_pick`: a helper that takes a
// closure would be longer.
pub fn tell_flows(
    rt: &HostRuntime,
    levels: Option<AnyRegime>,
    from: usize,
    to: usize,
) -> io::Result<()> {
    let Some(regime) = levels else {
        return println!(rt; "unmade");
    };
    if regime.flows(capped_byte(from), capped_byte(to)) {
        println!(rt; "flows yes")
    } else {
        println!(rt; "flows no")
    }
}

// The levels whose bits are one; none of a number from 16 up. A loop that inserts: `filter` and
// `fold` are as long, and `collect` takes an allocator.
fn set_of(mask: usize) -> ReadySet {
    let mut ready = ReadySet::none();
    for level in 0..16u8 {
        if (mask >> level) % 2 == 1 {
            ready.insert(level);
        }
    }
    ready
}

// Prints who moves at that place, of the levels in the mask.
pub fn tell_pick(
    rt: &HostRuntime,
    levels: Option<AnyRegime>,
    place: usize,
    mask: usize,
) -> io::Result<()> {
    let Some(regime) = levels else {
        return println!(rt; "unmade");
    };
    match regime.pick(capped_byte(place), set_of(mask)) {
        Some(level) => println!(rt; "picked {level}"),
        None => println!(rt; "nobody"),
    }
}

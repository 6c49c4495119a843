// A plain run of a script.
use copies::replica::Replica;
use copies::tapes::Tape;
use script::accepted::Script;

pub mod calls;
pub mod steps;

// One copy alone. What it wrote is told step by step and not kept.
#[derive(Clone, Copy)]
pub struct PlainRun {
    script: Script,
    // The list of each channel; a channel without one is shut. No copy reads past 64 values, so longer lists need no place.
    // An array, and no Vec: a plain run allocates nothing.
    lists: [Option<Tape>; 16],
    copy: Replica,
}

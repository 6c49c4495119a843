// The package House: what Class has, levels by order maps, the strip host, and types for any of the regimes and hosts.
#![tactic(auto)]

pub mod any_regime;
pub mod order_map;

pub use any_host::hosts;
// Named one by one, as in the package below: a `pub use` has no glob, and names of a whole crate would lie one deeper, as
// `house::class::Visit`.
pub use class::{
    Act, Did, Fault, Flaw, Host, Moved, Part, PlainRun, ReadySet, Record, Refusal, Regime, Replica,
    Script, Standing, Status, Visit, compartments, encoded_length, ladder, parts, queues,
    read_script, slots, split_record, write_script,
};
pub use strip::entry::Entry;
pub use strip::strips;

// The package Class: what Page has, and levels in compartments.
#![tactic(auto)]

pub mod compartments;

// Named one by one, as in the package below: a `pub use` has no glob, and names of a whole crate would lie one deeper, as
// `class::page::Visit`.
pub use page::{
    Act, Did, Fault, Flaw, Host, Moved, Part, PlainRun, ReadySet, Record, Refusal, Regime, Replica,
    Script, Standing, Status, Visit, encoded_length, ladder, parts, queues, read_script, slots,
    split_record, write_script,
};

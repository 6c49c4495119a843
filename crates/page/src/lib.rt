// The package Page: the reader and writer of scripts, the engine, the plain run, levels on a ladder, and a host in fixed
// memory.
#![tactic(auto)]

pub mod ladder;
pub mod slots;

// All that the public calls' signatures name, so that a maker needs no other crate.
pub use copies::replica::Replica;
pub use engine::visit::Visit;
pub use host::calls::Host;
pub use host::queues;
pub use meaning::answers::{Act, Moved, Standing, Status};
pub use preview::acts::Did;
pub use preview::plain_run::PlainRun;
pub use reader::file::read_script;
pub use reader::split::{Record, split_record};
pub use refusal::{Fault, Flaw, Part, Refusal};
pub use regime::ready::ReadySet;
pub use regime::rules::Regime;
pub use script::accepted::Script;
pub use script::parts;
pub use writer::file::{encoded_length, write_script};

// Reading one record of a script file: a channel or an instruction.
#![tactic(auto)]

pub mod channel;
mod cursor;
pub mod instruction;
mod kind;
mod record;

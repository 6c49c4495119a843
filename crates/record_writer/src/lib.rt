// One record of a script file in bytes, for writing it and for knowing how long it is.
#![tactic(auto)]

pub mod buffer;
pub mod encode;
pub mod length;

// The engine: a visit runs a script once for each level.
#![tactic(auto)]

pub mod visit;

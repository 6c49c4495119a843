// Scripts: what they are made of, the accepted script as a type, and how one is built by hand.
#![tactic(auto)]

pub mod accepted;
pub mod build;
pub mod laws;
pub mod parts;
pub mod same;

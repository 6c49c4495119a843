// The words of a line of the command-line tool: hex, numbers, values.
#![tactic(auto)]

pub mod error;
pub mod hex;
pub mod laws;
pub mod lines;
pub mod number;
pub mod words;

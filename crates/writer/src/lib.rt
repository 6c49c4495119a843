// Writing a script's file into a buffer of the caller's.
#![tactic(auto)]

pub mod file;

// The commands that a line of the command-line tool can hold.
#![tactic(auto)]

pub mod command;

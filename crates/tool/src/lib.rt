// What the command-line tool answers to lines about files, levels, hosts, visits and plain runs.
#![tactic(auto)]

pub mod files;
pub mod help;
pub mod hosts;
pub mod levels;
pub mod lines;
pub mod listing;
pub mod made;
pub mod previews;
pub mod tell;
pub mod told;
pub mod visits;

// Worked cases of the rules, proved, and one of them in code.
#![tactic(auto)]

pub mod lesson;
pub mod table;

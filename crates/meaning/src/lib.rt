// What a visit means: the answers of its calls, what they do, and what is promised of every log of calls.
#![tactic(auto)]

pub mod answers;
pub mod laws;

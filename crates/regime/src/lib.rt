// Levels of confidence: which flows to which, and whose copy moves next.
#![tactic(auto)]

pub mod ready;
pub mod rules;

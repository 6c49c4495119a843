// What a visit remembers, and the rules by which its copies go on.
#![tactic(auto)]

pub mod arithmetic;
pub mod replica;
pub mod rules;
pub mod table;
pub mod tapes;

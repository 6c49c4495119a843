// Reading script files that nobody trusts, and splitting them into their records.
#![tactic(auto)]

pub mod file;
pub mod split;
mod table;
mod unread;

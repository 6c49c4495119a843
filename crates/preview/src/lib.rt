// The plain run of a script, for authors who preview a book: one copy alone, without levels, regime and host.
#![tactic(auto)]

pub mod acts;
pub mod laws;
pub mod plain_run;

// One type for the slot host, the strip host and the maker's own.
#![tactic(auto)]

pub mod hosts;

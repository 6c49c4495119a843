// The strip host: all channels in one list of entries that the maker lends.
#![tactic(auto)]

pub mod entry;
pub mod laws;
mod sizes;
pub mod strips;

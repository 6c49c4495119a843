// An example of a maker's own host: channels on the heap, each of a capacity that the maker chooses.
#![tactic(auto)]

pub mod lanes;

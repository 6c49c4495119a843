// The script file: what it means, and the laws of reading and writing it. The code that reads and writes files
// stands above this crate and is proved against these definitions.
#![tactic(auto)]

pub mod laws;
pub mod layout;

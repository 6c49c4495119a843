// The copies of a script at all levels.
use crate::replica::Replica;

mod level_copy;
pub mod levels;

// A copy, and its own steps: 88 bytes.
#[derive(Clone, Copy)]
pub(crate) struct LevelCopy {
    copy: Replica,
    steps: u32,
}

// A copy for each level, in an array: a visit allocates nothing and its size is fixed.
#[derive(Clone, Copy)]
pub struct Copies {
    copies: [LevelCopy; 16],
}

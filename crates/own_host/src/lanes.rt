// Where the values are.
ghost use Rattle.std.specs.Prelude.{◌≤◌, length};
ghost use Rattle.std.specs.VecDeque.{deque_capacity};

use std::collections::VecDeque;

pub mod build;
pub mod calls;
mod ends;

// A lane is one channel. Its memory is set aside when it is made, since a put has no answer for want of memory.
#[derive(Drop)]
pub struct Lane {
    values: VecDeque<i32>,
    capacity: usize,
    ghost roomy: { 1 ≤ capacity },
    ghost bounded: { capacity ≤ 65535 },
    ghost set_aside: { capacity ≤ deque_capacity values },
}

#[derive(Drop)]
pub struct HeapHost {
    lanes: Vec<Lane>,
    ghost few: { length lanes.items ≤ 16 },
}

// One lane: how it is made, and its two ends.
ghost use Rattle.std.specs.Prelude.{◌≡◌, ◌≤◌, IfOk};
ghost use Rattle.own_host.specs.Lanes.{contents, room};

use crate::lanes::Lane;
use host::queues::ChannelQueue;
use refusal::Refusal;
use std::alloc::{AllocError, Global};
use std::collections::VecDeque;

impl Lane {
    // A lane with these values, even with more than the capacity.
    pub(crate) fn new(heap: Global, capacity: usize, values: &[i32]) -> Result<Lane, AllocError>
        requires roomy { 1 ≤ capacity }
        requires bounded { capacity ≤ 65535 }
        ensures { IfOk result (λ l. (contents l ≡ values.now) × (l.capacity ≡ capacity)) }
    {
        let mut row = Vec::with_capacity(heap, capacity)?;
        row.extend_from_slice(values)?;
        Ok(Lane {
            values: VecDeque::from_vec(row),
            capacity,
        })
    }
}

impl ChannelQueue for Lane {
    ghost list = { contents };

    ghost capacity = { room };

    fn len(&self) -> usize {
        self.values.len()
    }

    fn space(&self) -> usize {
        self.capacity.saturating_sub(self.len())
    }

    // Into memory that was set aside.
    fn push(&mut self, value: i32) -> Result<(), Refusal> {
        if self.len() >= self.capacity {
            return Err(Refusal::Full);
        }
        self.values.push_back_reserved(value);
        Ok(())
    }

    // An empty lane is refused before it is touched, as a full one is.
    fn pop(&mut self) -> Result<i32, Refusal> {
        if self.len() == 0 {
            return Err(Refusal::Empty);
        }
        self.values.remove(0).ok_or(Refusal::Empty)
    }
}

// The two ends of a channel of the slot host.
ghost use Rattle.std.specs.Prelude.{◌≡◌, []};
ghost use Rattle.page.specs.Slots.{contents, room};

use crate::slots::Queue;
use host::queues::ChannelQueue;
use refusal::Refusal;

impl Queue {
    pub(crate) fn empty() -> Queue
        ensures { contents result ≡ [] }
    {
        Queue {
            values: [0; 32],
            len: 0,
        }
    }
}

impl ChannelQueue for Queue {
    ghost list = { contents };

    ghost capacity = { room };

    fn len(&self) -> usize {
        self.len
    }

    fn space(&self) -> usize {
        32 - self.len
    }

    // A test and an index: of an array that `get_mut` lent no more is known than its length.
    fn push(&mut self, value: i32) -> Result<(), Refusal> {
        if self.len >= 32 {
            return Err(Refusal::Full);
        }
        self.values[self.len] = value;
        self.len += 1;
        Ok(())
    }

    // The others move up.
    fn pop(&mut self) -> Result<i32, Refusal> {
        let value = self.values[..self.len]
            .first()
            .copied()
            .ok_or(Refusal::Empty)?;
        self.values.rotate_left(1);
        self.len -= 1;
        Ok(value)
    }
}

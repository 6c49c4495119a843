// The slot host as a host.
ghost use Rattle.std.specs.Prelude.{◌≡◌, ℕ, []};
ghost use Rattle.host.specs.Queues.{NoMemoryPut, NoMemoryTake};
ghost use Rattle.page.specs.Slots.{channels_of, empty_channels, slots_lawful};

use crate::slots::{Queue, SlotHost};
use host::calls::Host;
use host::queues;
use refusal::Refusal;

impl SlotHost {
    // Every channel is empty.
    pub fn new() -> SlotHost
        ensures { channels_of result ≡ empty_channels }
    {
        SlotHost {
            queues: [Queue::empty(); 16],
        }
    }
}

// Each call is one line, as in the example of a maker's own host. One impl for both would be over a trait that lends the
// row, and each would have to show more of the row that it lends than is written here.
impl Host for SlotHost {
    ghost channels = { channels_of };

    ghost lawful = { slots_lawful };

    ghost puts = { NoMemoryPut };

    ghost takes = { NoMemoryTake };

    fn count(&self) -> u8 {
        self.queues.len() as u8
    }

    fn held(&self, channel: u8) -> Result<usize, Refusal> {
        queues::held(&self.queues, channel)
    }

    fn space(&self, channel: u8) -> Result<usize, Refusal> {
        queues::space(&self.queues, channel)
    }

    #[tactic(auto, using(crate::proofs::Rowed::left_put))]
    fn put(&mut self, channel: u8, value: i32) -> Result<(), Refusal> {
        queues::put(&mut self.queues, channel, value)
    }

    #[tactic(auto, using(crate::proofs::Rowed::left_take))]
    fn take(&mut self, channel: u8) -> Result<i32, Refusal> {
        queues::take(&mut self.queues, channel)
    }
}

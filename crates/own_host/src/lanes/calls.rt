// What a maker shows: the meaning of the host, and that each call does what a host's call does.
ghost use Rattle.std.specs.Prelude.{◌≡◌, ℕ, ℤ};
ghost use Rattle.host.specs.Queues.{NoMemoryPut, NoMemoryTake};
ghost use Rattle.own_host.specs.Lanes.{channels_of};
ghost use Rattle.own_host.specs.Lawful.{heap_lawful};

use super::HeapHost;
use host::calls::Host;
use host::queues;
use refusal::Refusal;

// Each call is one line, as in the slot host. One impl for both would be over a trait that lends the row, and a maker would
// have to show more of the row that it lends than is written here.
impl Host for HeapHost {
    ghost channels = { channels_of };

    ghost lawful = { heap_lawful };

    ghost puts = { NoMemoryPut };

    ghost takes = { NoMemoryTake };

    fn count(&self) -> u8 {
        self.lanes.len() as u8
    }

    fn held(&self, channel: u8) -> Result<usize, Refusal> {
        queues::held(&self.lanes, channel)
    }

    fn space(&self, channel: u8) -> Result<usize, Refusal> {
        queues::space(&self.lanes, channel)
    }

    fn put(&mut self, channel: u8, value: i32) -> Result<(), Refusal> {
        queues::put(&mut self.lanes, channel, value)
    }

    fn take(&mut self, channel: u8) -> Result<i32, Refusal> {
        queues::take(&mut self.lanes, channel)
    }
}

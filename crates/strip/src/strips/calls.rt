// The strip host as a host.
ghost use Rattle.std.specs.Prelude.{◌≡◌};
ghost use Rattle.strip.specs.Stripped.{StripPuts, StripTakes, channels_of, strip_lawful};

use crate::strips::StripHost;
use host::calls::Host;
use refusal::Refusal;

impl Host for StripHost<'_> {
    ghost channels = { λ h. channels_of h };

    ghost lawful = { λ h. strip_lawful h };

    ghost puts = { λ h c v k. StripPuts h c v k };

    ghost takes = { λ h c k. StripTakes h c k };

    fn count(&self) -> u8 {
        self.count
    }

    fn held(&self, channel: u8) -> Result<usize, Refusal> {
        self.held_on(channel)
    }

    fn space(&self, channel: u8) -> Result<usize, Refusal> {
        Ok(self.capacity - self.held_on(channel)?)
    }

    fn put(&mut self, channel: u8, value: i32) -> Result<(), Refusal> {
        if self.held_on(channel)? >= self.capacity {
            return Err(Refusal::Full);
        }
        self.push(channel, value);
        Ok(())
    }

    fn take(&mut self, channel: u8) -> Result<i32, Refusal> {
        if self.held_on(channel)? == 0 {
            return Err(Refusal::Empty);
        }
        Ok(self.pop(channel))
    }
}

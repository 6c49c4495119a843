// Each call is the call of the host inside: by a match in each, since nothing hands out a `dyn`.
ghost use Rattle.std.specs.Prelude.{◌≡◌};
ghost use Rattle.any_host.specs.Cases.{any_channels, any_lawful, AnyPuts, AnyTakes};

use crate::hosts::AnyHost;
use host::calls::Host;
use refusal::Refusal;

impl<S: Host, H: Host> Host for AnyHost<S, H> {
    ghost channels = { λ a. any_channels S.Host.channels H.Host.channels a };

    ghost lawful = { λ a. any_lawful S.Host.channels H.Host.channels S.Host.lawful H.Host.lawful a };

    ghost puts = { λ a c v b. AnyPuts S.Host.puts H.Host.puts a c v b };

    ghost takes = { λ a c b. AnyTakes S.Host.takes H.Host.takes a c b };

    fn count(&self) -> u8 {
        match self {
            AnyHost::Slot(host) => host.count(),
            AnyHost::Strip(host) => host.count(),
            AnyHost::Own(host) => host.count(),
        }
    }

    fn held(&self, channel: u8) -> Result<usize, Refusal> {
        match self {
            AnyHost::Slot(host) => host.held(channel),
            AnyHost::Strip(host) => host.held(channel),
            AnyHost::Own(host) => host.held(channel),
        }
    }

    fn space(&self, channel: u8) -> Result<usize, Refusal> {
        match self {
            AnyHost::Slot(host) => host.space(channel),
            AnyHost::Strip(host) => host.space(channel),
            AnyHost::Own(host) => host.space(channel),
        }
    }

    fn put(&mut self, channel: u8, value: i32) -> Result<(), Refusal> {
        match self {
            AnyHost::Slot(host) => host.put(channel, value),
            AnyHost::Strip(host) => host.put(channel, value),
            AnyHost::Own(host) => host.put(channel, value),
        }
    }

    fn take(&mut self, channel: u8) -> Result<i32, Refusal> {
        match self {
            AnyHost::Slot(host) => host.take(channel),
            AnyHost::Strip(host) => host.take(channel),
            AnyHost::Own(host) => host.take(channel),
        }
    }
}

// What a host is.
ghost use Rattle.std.specs.Prelude.{◌≡◌, ℕ, ℤ};
ghost use Rattle.host.specs.Channels.{Channels, Lawful, after_put, after_take, IfAccepted, IfRefused, lacking, put_answer, stored, take_answer};

use refusal::Refusal;

// A host holds values in channels, in order. Code over any host rests on what its channels hold, and knows of the
// host's own memory what the host says of it.
pub trait Host {
    // How many channels there are, what each can hold, and what each holds.
    ghost channels: { Self → Channels };

    // A member and not a law, so that a host over lent memory can give it.
    ghost lawful: { (h : Self) → Lawful (channels h) };

    // What an accepted put of a value on a channel makes of the host's own memory, from before to after.
    ghost puts: { Self → ℕ → ℤ → Self → Type 0 };

    // The same of an accepted take from a channel.
    ghost takes: { Self → ℕ → Self → Type 0 };

    // How many channels there are, 0 to 16.
    fn count(&self) -> u8
        ensures { result ≡ (channels self.now).count };

    // How many values the channel holds.
    fn held(&self, channel: u8) -> Result<usize, Refusal>
        ensures { result ≡ stored (channels self.now) channel };

    // How many more it can take: its capacity less what it holds, but at least 0.
    fn space(&self, channel: u8) -> Result<usize, Refusal>
        ensures { result ≡ lacking (channels self.now) channel };

    // The value goes to the end of the channel.
    fn put(&mut self, channel: u8, value: i32) -> Result<(), Refusal>
        ensures answer { result ≡ put_answer (channels self.old) channel }
        ensures after { channels self.new ≡ after_put (channels self.old) channel value }
        ensures memory { IfAccepted result (puts self.old channel value self.new) }
        ensures refused { IfRefused result (self.new ≡ self.old) };

    // The oldest value of the channel comes out.
    fn take(&mut self, channel: u8) -> Result<i32, Refusal>
        ensures answer { result ≡ take_answer (channels self.old) channel }
        ensures after { channels self.new ≡ after_take (channels self.old) channel }
        ensures memory { IfAccepted result (takes self.old channel self.new) }
        ensures refused { IfRefused result (self.new ≡ self.old) };
}

// One channel of the strip.
ghost use Rattle.std.specs.Prelude.{◌≡◌, ◌+◌, ◌-◌, ◌<◌, ◌≤◌, [], ◌∷◌, ◌++◌, length, position, MatchResult, Ok, ◌==◌, slice_index, slice_index_or, slice_set};
ghost use Rattle.host.specs.Channels.{oldest, rest, with_list};
ghost use Rattle.refusal.specs.declared.Refusal.TheVariants.{Channel};
ghost use Rattle.strip.specs.Entries.{closed_up, entries_put, listed, none, place};
ghost use Rattle.strip.specs.Stripped.{StripPuts, StripTakes, channels_of, in_use, lent};

use crate::entry::Entry;
use crate::strips::StripHost;
use refusal::Refusal;

// The next entry becomes the value on its channel. They come as two, here and below, as a host's `put` is given them: the
// entry is made here.
fn store(entries: &mut [Entry], at: usize, channel: u8, value: i32)
    requires { at < length entries.old }
    ensures { entries.new ≡ entries_put at channel value entries.old }
{
    entries[at] = Entry { channel, value };
}

// The entries after the place, of the first `len`, move forward by one.
fn close_up(entries: &mut [Entry], at: usize, len: usize)
    requires { (at < len) × (len ≤ length entries.old) }
    ensures { entries.new ≡ closed_up at len entries.old }
{
    entries.copy_within(at + 1..len, at);
}

fn count_up(counts: &mut [usize; 16], channel: u8)
    requires { (channel < 16) × (slice_index counts.old channel < 512) }
    ensures { counts.new ≡ slice_set counts.old channel (slice_index counts.old channel + 1) }
{
    counts[usize::from(channel)] += 1;
}

fn count_down(counts: &mut [usize; 16], channel: u8)
    requires { (channel < 16) × (0 < slice_index counts.old channel) }
    ensures { counts.new ≡ slice_set counts.old channel (slice_index counts.old channel - 1) }
{
    counts[usize::from(channel)] -= 1;
}

impl StripHost<'_> {
    // How many values the channel holds, if there is such a channel.
    pub(crate) fn held_on(&self, channel: u8) -> Result<usize, Refusal>
        ensures { MatchResult result (λ n. (channel < self.now.count) × (n ≡ length (listed channel (in_use self.now))) × (n ≤ self.now.capacity)) (λ e. (e ≡ Channel) × (self.now.count ≤ channel)) }
    {
        self.counts[..usize::from(self.count)]
            .get(usize::from(channel))
            .copied()
            .ok_or(Refusal::Channel)
    }

    fn search(&self, channel: u8) -> Option<usize>
        ensures { result ≡ position (λ e. e.channel == channel) (in_use self.now) }
    {
        self.entries[..self.len]
            .iter()
            .position(|entry| entry.channel == channel)
    }

    // The place of the channel's first entry in use. Where there is none, the number of those in use: `pop` is called only
    // where there is one, so it needs no arm for none.
    fn find(&self, channel: u8) -> usize
        ensures first { result ≡ place channel (in_use self.now) }
        ensures within { 0 < length (listed channel (in_use self.now)) → result < self.now.len }
    {
        self.search(channel).unwrap_or(self.len)
    }

    // A function of its own: its result's type tells the proof of `pop` that the value has 32 bits.
    fn value_at(&self, at: usize) -> i32
        requires { at < self.now.len }
        ensures { result ≡ (slice_index_or (lent self.now) at none).value }
    {
        self.entries[at].value
    }

    // The value goes to the end of the channel.
    pub(crate) fn push(&mut self, channel: u8, value: i32)
        requires { (channel < self.old.count) × (length (listed channel (in_use self.old)) < self.old.capacity) }
        ensures after { channels_of self.new ≡ with_list (channels_of self.old) channel (listed channel (in_use self.old) ++ (value ∷ [])) }
        ensures memory { StripPuts self.old channel value self.new }
    {
        store(self.entries, self.len, channel, value);
        self.len += 1;
        count_up(&mut self.counts, channel);
    }

    // The oldest value of the channel comes out: the entries in use after it move forward by one, and the rest stay.
    pub(crate) fn pop(&mut self, channel: u8) -> i32
        requires { (channel < self.old.count) × (0 < length (listed channel (in_use self.old))) }
        ensures answer { oldest (listed channel (in_use self.old)) ≡ Ok result }
        ensures after { channels_of self.new ≡ with_list (channels_of self.old) channel (rest (listed channel (in_use self.old))) }
        ensures memory { StripTakes self.old channel self.new }
    {
        let at = self.find(channel);
        let value = self.value_at(at);
        close_up(self.entries, at, self.len);
        self.len -= 1;
        count_down(&mut self.counts, channel);
        value
    }
}

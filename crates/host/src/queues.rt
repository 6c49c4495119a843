// Channels that stand in a row, each with a queue of its own: what a call on one of them answers and leaves.
ghost use Rattle.std.specs.Prelude.{◌≡◌, ℕ, ℤ, ◌-◌, ◌<◌, ◌≤◌, List, [], ◌∷◌, ◌++◌, length, MatchResult};
ghost use Rattle.host.specs.Channels.{IfRefused, after_put, after_take, lacking, oldest, on_ok, push_answer, put_answer, rest, stored, take_answer};
ghost use Rattle.host.specs.Queues.{queued};
ghost use Rattle.refusal.specs.declared.Refusal.TheVariants.{Channel};

use refusal::Refusal;

// The queue of one channel: at most `capacity` values, oldest first, but it may begin with more.
// That a refusal leaves it as it was is said of each call for itself, here, below and of a host: an invariant speaks of one
// value, and not of the one before.
pub trait ChannelQueue {
    ghost list: { Self → List ℤ };

    ghost capacity: { Self → ℕ };

    fn len(&self) -> usize
        ensures { result ≡ length (list self.now) };

    // How many more values fit, but at least 0.
    fn space(&self) -> usize
        ensures { result ≡ capacity self.now - length (list self.now) };

    // The value goes to the end, where it fits.
    fn push(&mut self, value: i32) -> Result<(), Refusal>
        ensures answer { result ≡ push_answer (capacity self.old) (list self.old) }
        ensures after { list self.new ≡ on_ok result (list self.old ++ (value ∷ [])) (list self.old) }
        ensures size { capacity self.new ≡ capacity self.old }
        ensures refused { IfRefused result (self.new ≡ self.old) };

    // The oldest value comes out, if there is one.
    fn pop(&mut self) -> Result<i32, Refusal>
        ensures answer { result ≡ oldest (list self.old) }
        ensures after { list self.new ≡ rest (list self.old) }
        ensures size { capacity self.new ≡ capacity self.old }
        ensures refused { IfRefused result (self.new ≡ self.old) };
}

// Below, the row stands first in each function, as `self` would: it is an array or a `Vec`, and a trait for `[Q]` would say
// no more than these functions. Where no capacity matters, a clause takes 0 for the channels that there are not.
pub fn held<Q: ChannelQueue>(queues: &[Q], channel: u8) -> Result<usize, Refusal>
    ensures { result ≡ stored (queued Q.list Q.capacity 0 queues.now) channel }
{
    let queue = queues.get(usize::from(channel)).ok_or(Refusal::Channel)?;
    Ok(queue.len())
}

pub fn space<Q: ChannelQueue>(queues: &[Q], channel: u8) -> Result<usize, Refusal>
    ensures { (k : ℕ) → result ≡ lacking (queued Q.list Q.capacity k queues.now) channel }
{
    let queue = queues.get(usize::from(channel)).ok_or(Refusal::Channel)?;
    Ok(queue.space())
}

// Where the channel's queue stands. Put and take index it, since of a slice that `get_mut` lent no more is known than its
// length.
fn place<Q>(queues: &[Q], channel: u8) -> Result<usize, Refusal>
    ensures { MatchResult result (λ i. (i ≡ channel) × (channel < length queues.now)) (λ e. (e ≡ Channel) × (length queues.now ≤ channel)) }
{
    let at = usize::from(channel);
    if at >= queues.len() {
        return Err(Refusal::Channel);
    }
    Ok(at)
}

pub fn put<Q: ChannelQueue>(queues: &mut [Q], channel: u8, value: i32) -> Result<(), Refusal>
    ensures answer { (k : ℕ) → result ≡ put_answer (queued Q.list Q.capacity k queues.old) channel }
    ensures after { (k : ℕ) → queued Q.list Q.capacity k queues.new ≡ after_put (queued Q.list Q.capacity k queues.old) channel value }
    ensures refused { IfRefused result (queues.new ≡ queues.old) }
{
    let at = place(queues, channel)?;
    put_at(queues, at, value)
}

// A function of its own, as `take_at` is: in one body with `place` the search leaves the clauses open.
fn put_at<Q: ChannelQueue>(queues: &mut [Q], at: usize, value: i32) -> Result<(), Refusal>
    requires { at < length queues.old }
    ensures answer { (k : ℕ) → result ≡ put_answer (queued Q.list Q.capacity k queues.old) at }
    ensures after { (k : ℕ) → queued Q.list Q.capacity k queues.new ≡ after_put (queued Q.list Q.capacity k queues.old) at value }
    ensures refused { IfRefused result (queues.new ≡ queues.old) }
{
    queues[at].push(value)
}

pub fn take<Q: ChannelQueue>(queues: &mut [Q], channel: u8) -> Result<i32, Refusal>
    ensures answer { result ≡ take_answer (queued Q.list Q.capacity 0 queues.old) channel }
    ensures after { (k : ℕ) → queued Q.list Q.capacity k queues.new ≡ after_take (queued Q.list Q.capacity k queues.old) channel }
    ensures refused { IfRefused result (queues.new ≡ queues.old) }
{
    let at = place(queues, channel)?;
    take_at(queues, at)
}

fn take_at<Q: ChannelQueue>(queues: &mut [Q], at: usize) -> Result<i32, Refusal>
    requires { at < length queues.old }
    ensures answer { result ≡ take_answer (queued Q.list Q.capacity 0 queues.old) at }
    ensures after { (k : ℕ) → queued Q.list Q.capacity k queues.new ≡ after_take (queued Q.list Q.capacity k queues.old) at }
    ensures refused { IfRefused result (queues.new ≡ queues.old) }
{
    queues[at].pop()
}

// Values fed in a row, to a visit over any host.
ghost use Rattle.std.specs.Prelude.{◌<◌, ◌≤◌, length, slice_index_or, take};
ghost use Rattle.engine.specs.Views.{frame_of, state_of};
ghost use Rattle.strip.specs.Entries.{none};
ghost use Rattle.strip_device.specs.Rows.{FedAll, Refuses};

use house::{Entry, Host, Regime, Visit};

// Until one is refused: how many were fed, and nothing else is called. What they make of the host's own memory is what the
// host promises of accepted puts; who knows the host's type knows what that is.
pub fn feed_row<R: Regime, H: Host>(visit: &mut Visit<R, H>, said: &[Entry]) -> usize
    ensures within { result ≤ length said.now }
    ensures stopped { result < length said.now → Refuses (frame_of R.Regime.order H.Host.channels visit.new) (state_of H.Host.channels visit.new) (slice_index_or said.now result none) }
    ensures fed { FedAll R.Regime.order H.Host.channels H.Host.puts (take result said.now) visit.old visit.new }
{
    for (fed, entry) in said.iter().enumerate() {
        let Ok(()) = visit.feed(entry.channel, entry.value) else {
            return fed;
        };
    }
    said.len()
}

// Visits over a strip of the maker's own entries, and what these then hold.
ghost use Rattle.std.specs.Prelude.{◌≡◌, ◌+◌, ◌-◌, ◌<◌, ◌≤◌, length, slice_index_or, slice_set, take};
ghost use Rattle.engine.specs.Views.{Serves, frame_of, opening, state_of};
ghost use Rattle.host.specs.Channels.{IfAccepted, IfRefused};
ghost use Rattle.meaning.specs.Answers.{collect, collected_by, fed_by, feed, turn, turned_by};
ghost use Rattle.meaning.specs.Logs.{after, reached};
ghost use Rattle.meaning.specs.Visits.{framed, opened};
ghost use Rattle.strip.specs.Entries.{entries_taken, none};
ghost use Rattle.strip.specs.Stripped.{channels_of, empty_strip};
ghost use Rattle.strip_device.specs.Rows.{Refuses, feeds};
ghost use Rattle.strip_device.specs.Slices.{after_turn, copied, entries_of, used_after_turn, used_by, with_row};

use crate::rows::feed_row;
use house::strips::StripHost;
use house::{Entry, Moved, Refusal, Regime, Script, Visit};

// A visit over a strip of these entries, with a channel for each of the script's: nothing is in use, and no entry changed.
pub fn open_on<'a, R: Regime>(
    entries: &'a mut [Entry],
    script: Script,
    regime: R,
) -> Visit<R, StripHost<'a>>
    ensures script { result.script ≡ script }
    ensures regime { result.regime ≡ regime }
    ensures frame { frame_of R.Regime.order channels_of result ≡ framed (opening script (R.Regime.order regime) (empty_strip script.channel_count (length entries.old))) }
    ensures state { state_of channels_of result ≡ opened (opening script (R.Regime.order regime) (empty_strip script.channel_count (length entries.old))) }
    ensures used { used_by result ≡ 0 }
    ensures entries { entries_of result ≡ entries.old }
{
    Visit::open(
        script,
        regime,
        StripHost::new(entries, script.channel_count),
    )
}

// One value is fed: it is the first entry that was not in use. A refusal leaves the whole visit as it was.
pub fn hear<R: Regime>(visit: &mut Visit<R, StripHost<'_>>, said: Entry) -> Result<(), Refusal>
    ensures served { Serves R.Regime.order channels_of visit.old (feed said.channel said.value) visit.new (fed_by result) }
    ensures fed { IfAccepted result (entries_of visit.new ≡ slice_set (entries_of visit.old) (used_by visit.old) said) }
    ensures used { IfAccepted result (used_by visit.new ≡ used_by visit.old + 1) }
    ensures refused { IfRefused result (visit.new ≡ visit.old) }
{
    visit.feed(said.channel, said.value)
}

// Values are fed until one is refused, and nothing else is called: those fed stand in order behind the entries that were in
// use.
pub fn hear_all<R: Regime>(visit: &mut Visit<R, StripHost<'_>>, said: &[Entry]) -> usize
    ensures within { result ≤ length said.now }
    ensures stopped { result < length said.now → Refuses (frame_of R.Regime.order channels_of visit.new) (state_of channels_of visit.new) (slice_index_or said.now result none) }
    ensures frame { frame_of R.Regime.order channels_of visit.new ≡ frame_of R.Regime.order channels_of visit.old }
    ensures state { state_of channels_of visit.new ≡ after (frame_of R.Regime.order channels_of visit.old) (state_of channels_of visit.old) (feeds (take result said.now)) }
    ensures entries { entries_of visit.new ≡ with_row (used_by visit.old) (take result said.now) (entries_of visit.old) }
    ensures used { used_by visit.new ≡ used_by visit.old + result }
{
    feed_row(visit, said)
}

// A turn. Where it took, the entries behind the one taken stand one further in front, and a copy of the last stays.
pub fn move_on<R: Regime>(visit: &mut Visit<R, StripHost<'_>>) -> Result<Option<Moved>, Refusal>
    ensures served { Serves R.Regime.order channels_of visit.old turn visit.new (turned_by result) }
    ensures entries { entries_of visit.new ≡ after_turn (used_by visit.old) (entries_of visit.old) result }
    ensures used { used_by visit.new ≡ used_after_turn (used_by visit.old) result }
{
    visit.turn()
}

// A value is collected, which does the same to the entries. A refusal leaves the whole visit as it was.
pub fn send_on<R: Regime>(visit: &mut Visit<R, StripHost<'_>>, channel: u8) -> Result<i32, Refusal>
    ensures served { Serves R.Regime.order channels_of visit.old (collect channel) visit.new (collected_by result) }
    ensures collected { IfAccepted result (entries_of visit.new ≡ entries_taken (used_by visit.old) channel (entries_of visit.old)) }
    ensures used { IfAccepted result (used_by visit.new ≡ used_by visit.old - 1) }
    ensures refused { IfRefused result (visit.new ≡ visit.old) }
{
    visit.collect(channel)
}

// What the entries hold while the visit lives.
pub fn shown<'a, R: Regime>(visit: &'a Visit<R, StripHost<'_>>) -> &'a [Entry]
    ensures { result.now ≡ entries_of visit.now }
{
    visit.host().entries()
}

// As much of it as there is room for.
fn copy_front(from: &[Entry], to: &mut [Entry])
    ensures { to.new ≡ copied from.now to.old }
{
    let n = from.len().min(to.len());
    to[..n].copy_from_slice(&from[..n]);
}

// A visit from its opening to its end. What its entries hold is copied before it ends.
pub fn keep<R: Regime + Drop>(
    entries: &mut [Entry],
    script: Script,
    regime: R,
    said: &[Entry],
    kept: &mut [Entry],
) -> usize
    ensures within { result ≤ length said.now }
    ensures stopped { let o = opening script (R.Regime.order regime) (empty_strip script.channel_count (length entries.old)) in result < length said.now → Refuses (framed o) (reached o (feeds (take result said.now))) (slice_index_or said.now result none) }
    ensures kept { kept.new ≡ copied (with_row 0 (take result said.now) entries.old) kept.old }
{
    let mut visit = open_on(entries, script, regime);
    let fed = hear_all(&mut visit, said);
    copy_front(shown(&visit), kept);
    fed
}

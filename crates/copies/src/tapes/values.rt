// What a tape has at a position, and a value more.
ghost use Rattle.std.specs.Prelude.{◌≡◌, ℕ, ◌<◌, ◌≤◌, ◌&&◌, [], ◌∷◌, ◌++◌, length, nat_lt};
ghost use Rattle.host.specs.Channels.{push_answer};
ghost use Rattle.meaning.specs.Copies.{nth};
ghost use Rattle.meaning.specs.Visits.{put_on};
ghost use Rattle.copies.specs.Held.{tape_of, tapes_of};

use crate::tapes::{Tape, Tapes};
use refusal::Refusal;

impl Tape {
    pub fn empty() -> Tape
        ensures { tape_of result ≡ [] }
    {
        Tape {
            values: [0; 64],
            len: 0,
        }
    }

    // The value at a position, if the tape is as long.
    #[tactic(auto, using(crate::proofs::Rows::looked_up))]
    pub fn value(&self, at: u8) -> Option<i32>
        ensures { result ≡ nth (tape_of self.now) at }
    {
        self.values[..usize::from(self.len)]
            .get(usize::from(at))
            .copied()
    }

    // Can it hold one value more?
    pub fn has_room(&self) -> bool
        ensures { result ≡ nat_lt (length (tape_of self.now)) 64 }
    {
        self.len < 64
    }

    // A value more. A tape of 64 values is full, and stays.
    pub fn push(&mut self, value: i32) -> Result<(), Refusal>
        ensures answer { result ≡ push_answer 64 (tape_of self.old) }
        ensures added { length (tape_of self.old) < 64 → tape_of self.new ≡ tape_of self.old ++ (value ∷ []) }
        ensures full { 64 ≤ length (tape_of self.old) → self.new ≡ self.old }
    {
        if !self.has_room() {
            return Err(Refusal::Full);
        }
        // A test and an index: of an array that `get_mut` lent no more is known than its length.
        self.values[usize::from(self.len)] = value;
        self.len += 1;
        Ok(())
    }
}

impl Tapes {
    // Nothing taken from any channel.
    pub fn new() -> Tapes
        ensures { (k : ℕ) → tapes_of result k ≡ [] }
    {
        Tapes {
            tapes: [Tape::empty(); 16],
        }
    }

    // The value at a position of the channel's tape, if it is as long.
    pub fn value(&self, channel: u8, at: u8) -> Option<i32>
        ensures { result ≡ nth (tapes_of self.now channel) at }
    {
        self.tapes
            .get(usize::from(channel))
            .and_then(|tape| tape.value(at))
    }

    // Has the channel a tape, and can it hold one value more? The engine need not ask: what it pushes has room.
    pub fn has_room(&self, channel: u8) -> bool
        ensures { result ≡ (nat_lt channel 16 && nat_lt (length (tapes_of self.now channel)) 64) }
    {
        self.tapes
            .get(usize::from(channel))
            .is_some_and(|tape| tape.has_room())
    }

    // A value more on the channel's tape. A channel that there is not, or a tape of 64 values, changes nothing.
    pub fn push(&mut self, channel: u8, value: i32)
        ensures added { channel < 16 → length (tapes_of self.old channel) < 64 → tapes_of self.new ≡ put_on channel value (tapes_of self.old) }
        ensures kept { 16 ≤ channel → self.new ≡ self.old }
        ensures full { 64 ≤ length (tapes_of self.old channel) → self.new ≡ self.old }
    {
        // By index: of an array that `get_mut` lent no more is known than its length. A cast, since `usize::from` costs the
        // answer a step more.
        if channel < 16 {
            let _ = self.tapes[channel as usize].push(value);
        }
    }
}

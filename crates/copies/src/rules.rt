// Where the value of an in comes from.
ghost use Rattle.std.specs.Prelude.{◌≡◌, ◌<◌, ℤ, None, Option, nat_lt};
ghost use Rattle.meaning.specs.Visits.{got};
ghost use Rattle.copies.specs.Sources.{given};

#[derive(Clone, Copy, PartialEq, Eq, Debug)]
pub enum Source {
    // Nowhere: the copy gets 0.
    Default,
    // The tape: another copy took it before.
    Tape(i32),
    // The host, if it holds a value.
    Host,
    // The copy at the channel's level, which has still to take it.
    Owner,
}

impl Source {
    // The first rule that applies, of a copy to whose level the channel flows or not, with its position in the tape, what
    // the tape has there, and whether the channel is of the copy's own level.
    pub fn of(flows: bool, position: u8, next: Option<i32>, own: bool) -> Source
        ensures gives { (oldest : Option ℤ) → got flows (nat_lt position 64) next own oldest ≡ given result oldest }
        ensures host { result ≡ Source.Host → (position < 64) × (next ≡ None) }
    {
        if !flows || position >= 64 {
            return Source::Default;
        }
        match next {
            Some(value) => Source::Tape(value),
            None if own => Source::Host,
            None => Source::Owner,
        }
    }
}

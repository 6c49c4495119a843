// What turns and questions answer.
ghost use Rattle.std.specs.Prelude.{◌≡◌};
ghost use Rattle.meaning.specs.Numbers.{act_number, carried, status_number, channel_lacked};

// What the picked copy did. A channel's tape is the values that copies have taken from it so far.
#[derive(Clone, Copy, PartialEq, Eq, Debug)]
pub enum Act {
    // It computed, jumped, skipped or stopped.
    Inner,
    // It took the oldest value of a channel of its own level from the host.
    Took { channel: u8, value: i32 },
    // It got from a tape what the copy at the channel's level had taken.
    Reused { channel: u8, value: i32 },
    // It got 0 in place of a value that it may not hear, or past the tape's end.
    Defaulted { channel: u8, value: i32 },
    // It put the value to a channel of its own level.
    Wrote { channel: u8, value: i32 },
    // Its value for a channel of another level was dropped.
    Withheld { channel: u8, value: i32 },
}

impl Act {
    // The number by which documents and programs call it: by a method, which says what the number is. Cases that carry
    // something have no `as u8`.
    pub fn number(self) -> u8
        ensures { result ≡ act_number self }
    {
        match self {
            Act::Inner => 0,
            Act::Took { .. } => 1,
            Act::Reused { .. } => 2,
            Act::Defaulted { .. } => 3,
            Act::Wrote { .. } => 4,
            Act::Withheld { .. } => 5,
        }
    }

    // The channel and the value of what it did with a channel.
    pub fn carried(self) -> Option<(u8, i32)>
        ensures { result ≡ carried self }
    {
        match self {
            Act::Inner => None,
            Act::Took { channel, value }
            | Act::Reused { channel, value }
            | Act::Defaulted { channel, value }
            | Act::Wrote { channel, value }
            | Act::Withheld { channel, value } => Some((channel, value)),
        }
    }
}

// Whom a turn moved, and what that copy did. A turn that moves nobody has none.
#[derive(Clone, Copy, PartialEq, Eq, Debug)]
pub struct Moved {
    pub level: u8,
    pub act: Act,
}

// Whether a copy can go on, and what it lacks.
#[derive(Clone, Copy, PartialEq, Eq, Debug)]
pub enum Status {
    Ready,
    LacksValue { channel: u8 },
    LacksSpace { channel: u8 },
    Ended,
}

impl Status {
    // The number by which documents and programs call it: by a method, as an act's.
    pub fn number(self) -> u8
        ensures { result ≡ status_number self }
    {
        match self {
            Status::Ready => 0,
            Status::LacksValue { .. } => 1,
            Status::LacksSpace { .. } => 2,
            Status::Ended => 3,
        }
    }

    // The channel that is lacking a value or space. 0 where none is lacked, by the rules of a question's answer: the status
    // tells which is meant.
    pub fn channel(self) -> u8
        ensures { result ≡ channel_lacked self }
    {
        match self {
            Status::LacksValue { channel } | Status::LacksSpace { channel } => channel,
            Status::Ready | Status::Ended => 0,
        }
    }
}

// How the copy at a level stands: its status, and its own steps, the number of turns that moved it.
#[derive(Clone, Copy, PartialEq, Eq, Debug)]
pub struct Standing {
    pub status: Status,
    pub steps: u32,
}

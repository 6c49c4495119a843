// What a step does.

#[derive(Clone, Copy, PartialEq, Eq, Debug)]
pub enum Did {
    // It computed, jumped, skipped or stopped.
    Inner,
    // It got the next value of a channel's list.
    Got { channel: u8, value: i32 },
    // It got 0: the channel is given nothing, or 64 values were read.
    Defaulted { channel: u8 },
    // It wrote the value to a channel.
    Wrote { channel: u8, value: i32 },
    // It stands still: the channel's list has no more value.
    Waits { channel: u8 },
    // It had ended before.
    Ended,
}

// The slot host: 16 channels of 32 values each, held in itself. It allocates nothing and is lent nothing.
ghost use Rattle.std.specs.Prelude.{◌≡◌, ◌≤◌, length};

pub mod calls;
mod ends;

// One channel: the first `len` values count, oldest first. An array with its length beside it, since the host is `Copy`
// and allocates nothing, and its size in bytes is part of what is sold: a tape of a visit has the same form, but 64 places
// and a length of one byte.
#[derive(Clone, Copy)]
pub struct Queue {
    values: [i32; 32],
    len: usize,
    ghost within: { len ≤ 32 },
    ghost size: { length values ≡ 32 },
}

#[derive(Clone, Copy)]
pub struct SlotHost {
    queues: [Queue; 16],
    ghost all: { length queues ≡ 16 },
}

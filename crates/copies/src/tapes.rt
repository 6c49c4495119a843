// Tapes: the values that copies have taken from each channel so far.
ghost use Rattle.std.specs.Prelude.{◌≡◌, ◌≤◌, length};

pub mod values;

// The tape of one channel: the first `len` values count. An array with its length beside it: an ArrayVec is not `Copy`, its
// length has eight bytes, and the size of a visit is fixed. A page's queue has the same form with 32 places and a `usize`:
// one type for both would change the size of one.
// Contracts see it by `tape_of` and not by a model: where nothing changes, they promise it of the places past `len` too.
#[derive(Clone, Copy)]
pub struct Tape {
    values: [i32; 64],
    len: u8,
    ghost within: { len ≤ 64 },
    ghost size: { length values ≡ 64 },
}

// A tape for each channel, in an array: a visit allocates nothing and its size is fixed.
#[derive(Clone, Copy)]
pub struct Tapes {
    tapes: [Tape; 16],
}

// Where the values are.
ghost use Rattle.std.specs.Prelude.{◌≡◌, ℕ, ◌*◌, ◌<◌, ◌≤◌, true, length, take, slice_index};
ghost use Rattle.strip.specs.Entries.{known, listed};

use crate::entry::Entry;

pub mod build;
pub mod calls;
mod ends;

// The first `len` entries are in use, in order of arrival: the memory is the maker's, of a size of its choice, so its
// length in use stands beside it. `counts` has how many of them are of each channel: to look through the entries at
// each question would cost their number.
#[derive(Drop)]
pub struct StripHost<'a> {
    entries: &'a mut [Entry],
    len: usize,
    count: u8,
    capacity: usize,
    counts: [usize; 16],
    ghost few: { count ≤ 16 },
    ghost slim: { capacity ≤ 512 },
    ghost roomy: { 0 < count → 1 ≤ capacity },
    ghost enough: { count * capacity ≤ length entries.now },
    ghost within: { len ≤ length entries.now },
    ghost numbered: { known count (take len entries.now) ≡ true },
    ghost tied: { (c : ℕ) → slice_index counts c ≡ length (listed c (take len entries.now)) },
    ghost bounded: { (c : ℕ) → slice_index counts c ≤ capacity },
}

// How a strip is made and looked at.
ghost use Rattle.std.specs.Prelude.{◌≡◌, length};
ghost use Rattle.strip.specs.Stripped.{channels_of, empty_strip, lent};

use crate::entry::Entry;
use crate::sizes::{capacity_of, count_of};
use crate::strips::StripHost;

impl<'a> StripHost<'a> {
    // A strip with nothing in use. No entry changes.
    pub fn new(entries: &'a mut [Entry], asked: usize) -> StripHost<'a>
        ensures channels { channels_of result ≡ empty_strip asked (length entries.old) }
        ensures used { result.len ≡ 0 }
        ensures same { result.entries.ghost_name ≡ entries.entry.ghost_name }
        ensures unchanged { lent result ≡ entries.old }
    {
        let given = entries.len();
        let count = count_of(asked, given);
        let capacity = capacity_of(count, given);
        StripHost {
            entries,
            len: 0,
            count,
            capacity,
            counts: [0; 16],
        }
    }
}

impl StripHost<'_> {
    // All that was lent, in use or not.
    pub fn entries(&self) -> &[Entry]
        ensures { result.now ≡ lent self.now }
    {
        self.entries
    }

    // How many entries are in use: the first ones.
    pub fn used(&self) -> usize
        ensures { result ≡ self.now.len }
    {
        self.len
    }

    // How many values each channel can hold.
    pub fn capacity(&self) -> usize
        ensures { result ≡ self.now.capacity }
    {
        self.capacity
    }
}

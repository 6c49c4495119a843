// The pieces that a record is read in.
ghost use Rattle.std.specs.Prelude.{◌≡◌};
ghost use Rattle.format.specs.Rules.{fault, value_of};

use refusal::{Fault, Part, Refusal};

// The record that is read: the length of its file, the part of the file that it is, and the number of its map byte.
#[derive(Clone, Copy)]
pub struct Site {
    pub length: usize,
    pub part: Part,
    pub map_at: usize,
}

impl Site {
    // The fault of that refusal at that byte of the record.
    pub fn fault(self, refusal: Refusal, byte: usize) -> Fault
        ensures { result ≡ fault refusal byte self.part }
    {
        Fault {
            refusal,
            byte,
            part: self.part,
        }
    }
}

// A field of a record: its first byte (the map byte where it is absent), and its value, if its map bit is one.
#[derive(Clone, Copy)]
pub struct Field {
    pub byte: usize,
    pub value: Option<u32>,
}

impl Field {
    // The number that the field holds, 0 where it is absent. By a method, whose name says so; `u32::from(field)` would not.
    pub fn number(self) -> u32
        ensures { result ≡ value_of self }
    {
        self.value.unwrap_or(0)
    }
}

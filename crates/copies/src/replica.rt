// One copy of a script.
ghost use Rattle.std.specs.Prelude.{◌≡◌, length};

pub mod steps;

// The place of the next instruction, the registers, and a position in the tape of each channel: as many as the subject has,
// in arrays, since a visit allocates nothing and its size is fixed.
#[derive(Clone, Copy)]
pub struct Replica {
    next: u16,
    registers: [i32; 16],
    positions: [u8; 16],
    ghost wide: { length registers ≡ 16 },
    ghost placed: { length positions ≡ 16 },
}

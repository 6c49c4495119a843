// Why a line gets no other answer than an error.
ghost use Rattle.std.specs.Prelude.{◌≡◌};
ghost use Rattle.text.specs.declared.error.LineError.TheVariants.{Memory};

use std::alloc::{AllocError, AllocFailed};
use thiserror::Error;

#[derive(Clone, Copy, PartialEq, Eq, Debug, Error)]
pub enum LineError {
    #[error("unknown command, see help")]
    Unknown,
    #[error("a word is missing, see help")]
    Missing,
    #[error("a word too many, see help")]
    Extra,
    #[error("an odd number of hex digits")]
    OddHex,
    #[error("not a hex digit")]
    HexDigit,
    #[error("not a number from 0 to 18446744073709551615")]
    Number,
    #[error("room too large, at most 65536")]
    Room,
    #[error("a row is four hex digits")]
    Row,
    #[error("a mask is hex digits, of 64 bits at most")]
    Mask,
    #[error("levels are a ladder, compartments or a map")]
    Shape,
    #[error("a host is slot, caps or strip")]
    Host,
    #[error("a capacity is a number from 1 to 65535")]
    Capacity,
    #[error("a value is a number from -2147483648 to 2147483647")]
    Value,
    #[error("too many turns for one line, at most 10000000")]
    Turns,
    #[error("out of memory")]
    Memory,
}

// By hand, since clauses name what `?` makes of want of memory: thiserror's `#[from]` writes no contract.
impl From<AllocError> for LineError {
    ghost from_gives = { λ _ r. r ≡ Memory };

    fn from(_e: AllocError) -> LineError {
        LineError::Memory
    }
}

impl<T: Drop> From<AllocFailed<T>> for LineError {
    ghost from_gives = { λ _ r. r ≡ Memory };

    fn from(_e: AllocFailed<T>) -> LineError {
        LineError::Memory
    }
}

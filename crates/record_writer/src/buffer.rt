// The bytes of one record.
ghost use Rattle.std.specs.Prelude.{◌≡◌, ◌≤◌, length};

// The first `len` bytes count. No record is longer than 12 bytes: the map and all fields of an instruction. An array with
// its length: an `ArrayVec`, tried, proves too, but then writing a file takes a quarter more instructions.
#[derive(Clone, Copy)]
pub struct RecordBytes {
    pub(crate) bytes: [u8; 12],
    pub(crate) len: usize,
    ghost few: { len ≤ 12 },
    ghost size: { length bytes ≡ 12 },
}

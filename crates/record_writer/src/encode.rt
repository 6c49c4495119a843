// Channels and instructions as records.
ghost use Rattle.std.specs.Prelude.{◌≡◌, ℕ, ◌+◌, ◌<◌, ◌≤◌, List, [], ◌∷◌, ◌++◌, length, if◌then◌else◌};
ghost use Rattle.std.proofs.Common.{of_z};
ghost use Rattle.format.specs.Encoding.{encode_channel, encode_instruction, field_of, field_values, map_of};
ghost use Rattle.record_writer.specs.Held.{held};
ghost use Rattle.record_writer.specs.Written.{written};

use crate::buffer::RecordBytes;
use script::parts::{Channel, Fields, Instruction};

impl RecordBytes {
    // The record's bytes.
    pub fn as_slice(&self) -> &[u8]
        ensures { result.now ≡ held self.now }
    {
        &self.bytes[..self.len]
    }

    // How many bytes the record has.
    pub fn len(&self) -> usize
        ensures is { result ≡ length (held self.now) }
        ensures few { result ≤ 12 }
    {
        self.len
    }
}

// Bytes from `at` on; the place after them. The writer has a function of its own for it: a public call asks nothing, and
// this one, asked of every field, would test what is known.
#[tactic(auto, using(crate::proofs::Puts::put_is, crate::proofs::Puts::length_written))]
fn put(room: &mut [u8], at: usize, bytes: &[u8]) -> usize
    requires { at + length bytes.now ≤ length room.old }
    ensures end { result ≡ at + length bytes.now }
    ensures size { length room.new ≡ length room.old }
    ensures holds { room.new ≡ written at bytes.now room.old }
{
    let end = at + bytes.len();
    room[at..end].copy_from_slice(bytes);
    end
}

// A field, low byte first, where there is one. Whether there is comes from the number: of its bytes, each would be tested.
#[tactic(auto, using(crate::proofs::Puts::nothing_written))]
fn put_field<const N: usize>(room: &mut [u8], at: usize, is_there: bool, field: [u8; N]) -> usize
    requires { at + N ≤ length room.old }
    ensures few { result ≤ at + N }
    ensures size { length room.new ≡ length room.old }
    ensures end { result ≡ at + length (if is_there then field.entry else []) }
    ensures holds { room.new ≡ written at (if is_there then field.entry else []) room.old }
{
    if is_there { put(room, at, &field) } else { at }
}

// Two fields of a byte each.
fn put_bytes(room: &mut [u8], at: usize, first: u8, second: u8) -> usize
    requires { at + 2 ≤ length room.old }
    ensures few { result ≤ at + 2 }
    ensures size { length room.new ≡ length room.old }
    ensures end { result ≡ at + length (field_of 1 first ++ field_of 1 second) }
    ensures holds { room.new ≡ written at (field_of 1 first ++ field_of 1 second) room.old }
{
    let at = put_field(room, at, first != 0, [first]);
    put_field(room, at, second != 0, [second])
}

// The kind of an instruction and its registers, a byte each.
fn put_registers(room: &mut [u8], at: usize, f: Fields) -> usize
    requires { at + 4 ≤ length room.old }
    ensures few { result ≤ at + 4 }
    ensures size { length room.new ≡ length room.old }
    ensures end { result ≡ at + length ((field_of 1 f.kind ++ field_of 1 f.target) ++ (field_of 1 f.first ++ field_of 1 f.second)) }
    ensures holds { room.new ≡ written (at + length (field_of 1 f.kind ++ field_of 1 f.target)) (field_of 1 f.first ++ field_of 1 f.second) (written at (field_of 1 f.kind ++ field_of 1 f.target) room.old) }
{
    let at = put_bytes(room, at, f.kind, f.target);
    put_bytes(room, at, f.first, f.second)
}

// The map of a channel record. Each field's bit stands beside the field's name, here and below: a fold over an array of
// the bits would be given the same list of tests, and be one function more. The direction comes as its number, since a bit
// says whether that is 0.
fn channel_map(code: u8, level: u8) -> u8
    ensures { result ≡ map_of (code ∷ level ∷ []) }
{
    u8::from(code != 0) + 2 * u8::from(level != 0)
}

// The map of an instruction record.
fn instruction_map(f: Fields) -> u8
    ensures { result ≡ map_of (field_values f) }
{
    u8::from(f.kind != 0)
        + 2 * u8::from(f.target != 0)
        + 4 * u8::from(f.first != 0)
        + 8 * u8::from(f.second != 0)
        + 16 * u8::from(f.number != 0)
        + 32 * u8::from(f.place != 0)
        + 64 * u8::from(f.channel != 0)
}

// What a script file holds as a record.
pub trait FileRecord: Copy {
    // The record as the file has it.
    ghost encoded: { Self → List ℕ };

    // Writes the record to the front of the room and answers how many bytes it has; what stands past it stays. A room of
    // fewer than 12 bytes, the most that a record has, stays as it is.
    fn write(self, room: &mut [u8]) -> usize
        ensures few { result ≤ 12 }
        ensures end { 12 ≤ length room.old → result ≡ length (encoded self) }
        ensures holds { 12 ≤ length room.old → room.new ≡ written 0 (encoded self) room.old }
        ensures kept { length room.old < 12 → room.new ≡ room.old };
}

impl FileRecord for Channel {
    ghost encoded = { encode_channel };

    fn write(self, room: &mut [u8]) -> usize {
        if room.len() < 12 {
            return 0;
        }
        let code = self.direction.code();
        let at = put(room, 0, &[channel_map(code, self.level)]);
        put_bytes(room, at, code, self.level)
    }
}

impl FileRecord for Instruction {
    ghost encoded = { encode_instruction };

    fn write(self, room: &mut [u8]) -> usize {
        if room.len() < 12 {
            return 0;
        }
        let f = self.fields();
        let at = put(room, 0, &[instruction_map(f)]);
        let at = put_registers(room, at, f);
        let at = put_field(room, at, f.number != 0, f.number.to_le_bytes());
        let at = put_field(room, at, f.place != 0, f.place.to_le_bytes());
        put_field(room, at, f.channel != 0, [f.channel])
    }
}

// The record in bytes of its own.
#[tactic(auto, using(crate::proofs::Puts::front_of))]
pub fn to_bytes<R: FileRecord>(from: R) -> RecordBytes
    ensures { held result ≡ R.FileRecord.encoded from }
{
    let mut bytes = [0; 12];
    let len = from.write(&mut bytes);
    RecordBytes { bytes, len }
}

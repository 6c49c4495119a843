// Whole files into a buffer.
ghost use Rattle.std.specs.Prelude.{◌≡◌, ◌+◌, ◌≤◌, length};
ghost use Rattle.std.specs.List.{flat_map};
ghost use Rattle.record_writer.specs.Written.{written};
ghost use Rattle.writer.specs.Written.{Writes};

use record_writer::encode::{FileRecord, to_bytes};
pub use record_writer::length::encoded_length;
use refusal::Refusal;
use script::accepted::Script;

// Writes the bytes from `at` on, and answers the place after them. The place is a number that is carried along: of a rest
// that is split off again and again in a loop, a proof does not know what the whole buffer holds afterwards.
#[tactic(auto, using(record_writer::proofs::Puts::put_is))]
fn put(out: &mut [u8], at: usize, bytes: &[u8]) -> usize
    requires { at + length bytes.now ≤ length out.old }
    ensures end { result ≡ at + length bytes.now }
    ensures holds { out.new ≡ written at bytes.now out.old }
{
    let end = at + bytes.len();
    out[at..end].copy_from_slice(bytes);
    end
}

// Writes a record from `at` on, and answers the place after it. It is written where it shall stand: only where fewer than 12
// bytes are left, the most that a record has, it is written apart and copied.
#[tactic(auto, using(record_writer::proofs::Puts::put_at_end))]
fn put_record<R: FileRecord>(out: &mut [u8], at: usize, item: R) -> usize
    requires { at + length (R.FileRecord.encoded item) ≤ length out.old }
    ensures end { result ≡ at + length (R.FileRecord.encoded item) }
    ensures holds { out.new ≡ written at (R.FileRecord.encoded item) out.old }
{
    if out.len() - at < 12 {
        return put(out, at, to_bytes(item).as_slice());
    }
    at + item.write(&mut out[at..])
}

// Writes the records one after another from `at` on, and answers the place after them.
#[tactic(auto, using(crate::proofs::Puts::room, crate::proofs::Puts::all_written))]
fn put_records<R: FileRecord>(out: &mut [u8], at: usize, records: &[R]) -> usize
    requires { at + length (flat_map R.FileRecord.encoded records.now) ≤ length out.old }
    ensures end { result ≡ at + length (flat_map R.FileRecord.encoded records.now) }
    ensures holds { out.new ≡ written at (flat_map R.FileRecord.encoded records.now) out.old }
{
    let mut end = at;
    for record in records {
        end = put_record(out, end, *record);
    }
    end
}

// Writes the script's file to the front of the buffer and answers its length; what stands past it stays. A buffer that
// is too short stays as it was.
pub fn write_script(script: &Script, out: &mut [u8]) -> Result<usize, Refusal>
    ensures { Writes script.now out.old out.new result }
{
    if out.len() < encoded_length(script) {
        return Err(Refusal::Buffer);
    }
    let at = put(out, 0, &[script.levels, script.channel_count as u8]);
    let at = put_records(out, at, script.channels());
    let at = put(out, at, &(script.instruction_count as u16).to_le_bytes());
    Ok(put_records(out, at, script.instructions()))
}

// Where the records of a script's file begin, and how long the file is.
ghost use Rattle.std.specs.Prelude.{◌≡◌, ◌*◌, ◌≤◌, take, length};
ghost use Rattle.std.specs.List.{flat_map};
ghost use Rattle.script.specs.Model.{model_of};
ghost use Rattle.format.specs.Encoding.{channel_start, encode, instruction_start};

use crate::encode::{FileRecord, to_bytes};
use script::accepted::Script;

// How many bytes records have one after another.
#[tactic(auto, using(crate::proofs::Lengths::joined_length))]
fn records_length<R: FileRecord>(records: &[R]) -> usize
    requires { length records.now ≤ 256 }
    ensures { result ≡ length (flat_map R.FileRecord.encoded records.now) }
{
    records.iter().map(|record| to_bytes(*record).len()).sum()
}

// The first `count` of them, or all where there are fewer.
fn first<R>(records: &[R], count: usize) -> &[R]
    ensures is { result.now ≡ take count records.now }
    ensures few { length result.now ≤ length records.now }
{
    &records[..count.min(records.len())]
}

// The number of the byte that channel record `index` begins at; past the last channel, the byte after all of them.
#[tactic(auto, using(crate::proofs::Lengths::channels_short, crate::proofs::Lengths::front_short))]
pub fn channel_start(script: &Script, index: usize) -> usize
    ensures few { result ≤ 194 }
    ensures is { result ≡ channel_start (model_of script.now) index }
{
    2 + records_length(first(script.channels(), index))
}

// The same of instruction records.
#[tactic(auto, using(crate::proofs::Lengths::instructions_short, crate::proofs::Lengths::front_short))]
pub fn instruction_start(script: &Script, index: usize) -> usize
    ensures few { result ≤ 3268 }
    ensures is { result ≡ instruction_start (model_of script.now) index }
    ensures whole { index ≡ script.now.instruction_count → result ≡ length (encode script.now) }
{
    channel_start(script, script.channel_count)
        + 2
        + records_length(first(script.instructions(), index))
}

// How many bytes the script's file has.
pub fn encoded_length(script: &Script) -> usize
    ensures { result ≡ length (encode script.now) }
{
    instruction_start(script, script.instruction_count)
}

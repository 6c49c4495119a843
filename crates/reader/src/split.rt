// Splitting a file into its records.
ghost use Rattle.std.specs.Prelude.{◌≡◌, ◌+◌, ◌<◌};
ghost use Rattle.script.specs.Model.{model_of};
ghost use Rattle.format.specs.Encoding.{channel_start, instruction_start};
ghost use Rattle.reader.specs.Split.{Splits};

use crate::file::read_script;
use record_writer::length::{channel_start, instruction_start};
use refusal::Fault;
use script::accepted::Script;
use std::ops::Range;

// A record of the file, as a part of the file's bytes.
#[derive(Clone, Copy)]
pub enum Record<'a> {
    Channel(&'a [u8]),
    Instruction(&'a [u8]),
}

// Where a script's channel record stands in its file. Twice, since each kind of record has its own start and its own
// bound.
fn channel_range(script: &Script, index: usize) -> Range<usize>
    requires { index < script.now.channel_count }
    ensures from { result.start ≡ channel_start (model_of script.now) index }
    ensures next { result.end ≡ channel_start (model_of script.now) (index + 1) }
{
    channel_start(script, index)..channel_start(script, index + 1)
}

// And an instruction record.
fn instruction_range(script: &Script, index: usize) -> Range<usize>
    requires { index < script.now.instruction_count }
    ensures from { result.start ≡ instruction_start (model_of script.now) index }
    ensures next { result.end ≡ instruction_start (model_of script.now) (index + 1) }
{
    instruction_start(script, index)..instruction_start(script, index + 1)
}

// The record with that index, channels first and then instructions, with the number of its first byte; nothing past the
// last. A file that reading refuses is refused in the same way.
pub fn split_record<'a>(file: &'a [u8], index: usize) -> Result<Option<(usize, Record<'a>)>, Fault>
    ensures { Splits file.now index result }
{
    let script = read_script(file)?;
    if index < script.channel_count {
        let range = channel_range(&script, index);
        return Ok(Some((range.start, Record::Channel(&file[range]))));
    }
    let place = index - script.channel_count;
    if place < script.instruction_count {
        let range = instruction_range(&script, place);
        return Ok(Some((range.start, Record::Instruction(&file[range]))));
    }
    Ok(None)
}

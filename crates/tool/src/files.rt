// The answers about files.
use crate::told::{Shown, Told};
use reader::file::read_script;
use reader::split::{Record, split_record};
use refusal::Fault;
use script::accepted::Script;
use std::io;
use text::words::word_of;
use writer::file::write_script;

// What a byte of a buffer holds before anything is written to it.
const UNWRITTEN: u8 = 0xEE;

// Prints `refused`, the refusal's number, the byte and the part.
fn refuse_file(rt: &HostRuntime, fault: Fault) -> io::Result<()> {
    println!(rt; "{}", Told(fault))
}

// Prints `script` and how many levels, channels and instructions it has.
pub fn tell_script(rt: &HostRuntime, script: &Script) -> io::Result<()> {
    let levels = script.levels;
    let channels = script.channel_count;
    let instructions = script.instruction_count;
    println!(rt; "script {levels} {channels} {instructions}")
}

// The answer about a file's script, or the refusal of the file.
pub fn answer_file<F: FnOnce(&Script) -> io::Result<()>>(
    rt: &HostRuntime,
    file: &[u8],
    answer: F,
) -> io::Result<()>
    requires { F.IsAlwaysCallable answer }
{
    match read_script(file) {
        Ok(script) => answer(&script),
        Err(fault) => refuse_file(rt, fault),
    }
}

// Prints how many levels, channels and instructions the file's script has.
pub fn read(rt: &HostRuntime, file: &[u8]) -> io::Result<()> {
    answer_file(rt, file, |script| tell_script(rt, script))
}

// Prints the script's channels and instructions, field by field.
pub fn show(rt: &HostRuntime, file: &[u8]) -> io::Result<()> {
    answer_file(rt, file, |script| println!(rt; "{}", Shown(script)))
}

// Prints what the record is, the number of its first byte, and its bytes; or `nothing` where there is none.
pub fn split(rt: &HostRuntime, file: &[u8], index: usize) -> io::Result<()> {
    match split_record(file, index) {
        Ok(Some((first, Record::Channel(bytes)))) => {
            println!(rt; "channel {first} {}", word_of(rt.alloc(), bytes)?)
        }
        Ok(Some((first, Record::Instruction(bytes)))) => {
            println!(rt; "instruction {first} {}", word_of(rt.alloc(), bytes)?)
        }
        Ok(None) => println!(rt; "nothing"),
        Err(fault) => refuse_file(rt, fault),
    }
}

// Writes the script to a buffer of that size, and prints whether it fits. The whole buffer is printed, so that it is
// seen which bytes were left as they were.
fn tell_written(rt: &HostRuntime, script: &Script, room: usize) -> io::Result<()> {
    let mut buffer = vec![in rt.alloc(); UNWRITTEN; room]?;
    let written = write_script(script, buffer.as_mut_slice());
    let shown = word_of(rt.alloc(), buffer.as_slice())?;
    match written {
        Ok(length) => println!(rt; "written {length} {shown}"),
        Err(refusal) => println!(rt; "refused {} {shown}", refusal.number()),
    }
}

// Writes the file's script so.
pub fn write(rt: &HostRuntime, file: &[u8], room: usize) -> io::Result<()> {
    answer_file(rt, file, |script| tell_written(rt, script, room))
}

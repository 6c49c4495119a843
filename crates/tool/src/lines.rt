// The lines that the tool reads.
use crate::help::help;
use console::command::Command;
use std::io;

// What a line asks for. Nothing if it is blank or for people, and if it is answered here: `help`, whose answer is always
// the same, and a line that cannot be understood.
pub fn command_of(rt: &HostRuntime, line: &[u8]) -> io::Result<Option<Command>> {
    match Command::parse(rt.alloc(), line) {
        Ok(Some(Command::Help)) => help(rt)?,
        Ok(command) => return Ok(command),
        Err(error) => println!(rt; "error {error}")?,
    }
    Ok(None)
}

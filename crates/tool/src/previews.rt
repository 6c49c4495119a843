// A plain run and the calls on it.
use crate::tell::tell_done;
use console::command::Command;
use copies::replica::Replica;
use preview::acts::Did;
use preview::plain_run::PlainRun;
use std::{fmt, io};
use text::number::capped_byte;

// What a step did, in words. A struct of one field, here and below: a crate may not implement `Display` for a type of
// another crate.
#[derive(Clone, Copy)]
struct Stepped(Did);

impl fmt::Display for Stepped {
    fn fmt<W: fmt::Write>(&self, f: &mut fmt::Formatter<W>) -> fmt::Result {
        match self.0 {
            Did::Inner => f.write_str("inner"),
            Did::Got { channel, value } => write!(f, "got {channel} {value}"),
            Did::Defaulted { channel } => write!(f, "defaulted {channel}"),
            Did::Wrote { channel, value } => write!(f, "wrote {channel} {value}"),
            Did::Waits { channel } => write!(f, "waits {channel}"),
            Did::Ended => f.write_str("ended"),
        }
    }
}

// Writes a word and what a copy has at each of 16 places, registers or channels.
fn write_places<W: fmt::Write, T: fmt::Display + Drop, F: Fn(u8) -> T>(
    f: &mut fmt::Formatter<W>,
    word: &str,
    at: F,
) -> fmt::Result
    requires { F.IsAlwaysCallable at }
{
    write!(f, " {word}")?;
    for place in 0..16u8 {
        write!(f, " {}", at(place))?;
    }
    Ok(())
}

// Where a copy is: its next instruction, registers and positions.
#[derive(Clone, Copy)]
struct Placed(Replica);

impl fmt::Display for Placed {
    fn fmt<W: fmt::Write>(&self, f: &mut fmt::Formatter<W>) -> fmt::Result {
        let copy = self.0;
        write!(f, "next {}", copy.next())?;
        write_places(f, "registers", |index| copy.register(index))?;
        write_places(f, "positions", |channel| copy.position(channel))
    }
}

// A line to a plain run. What only a host or a visit could answer is unmade.
pub fn answer_run(rt: &HostRuntime, run: &mut PlainRun, command: Command) -> io::Result<()> {
    match command {
        Command::Give(channel) => tell_done(rt, "given", run.give(capped_byte(channel))),
        Command::Add(channel, value) => tell_done(
            rt,
            "added",
            run.add(capped_byte(channel), value),
        ),
        Command::Step => println!(rt; "{}", Stepped(run.step())),
        Command::Copy => println!(rt; "{}", Placed(run.copy())),
        _ => println!(rt; "unmade"),
    }
}

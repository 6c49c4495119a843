// Files as people read them.
use crate::told::Named;
use reader::file::read_script;
use refusal::{Fault, Part, Refusal};
use script::accepted::Script;
use script::parts::{Channel, Direction, Instruction, Operation};
use std::{fmt, io};

// A channel in words. A struct of one field, here and below: a crate may not implement `Display` for a type of another
// crate.
#[derive(Clone, Copy)]
struct Wire(Channel);

impl fmt::Display for Wire {
    fn fmt<W: fmt::Write>(&self, f: &mut fmt::Formatter<W>) -> fmt::Result {
        let level = self.0.level;
        match self.0.direction {
            Direction::In => write!(f, "in, level {level}"),
            Direction::Out => write!(f, "out, level {level}"),
        }
    }
}

// What an operation makes of two registers, in words. Three fields of an instruction: `Operation` alone is no phrase.
#[derive(Clone, Copy)]
struct Computed {
    operation: Operation,
    first: u8,
    second: u8,
}

impl fmt::Display for Computed {
    fn fmt<W: fmt::Write>(&self, f: &mut fmt::Formatter<W>) -> fmt::Result {
        let first = self.first;
        let second = self.second;
        match self.operation {
            Operation::Add => write!(f, "register {first} + register {second}"),
            Operation::Subtract => write!(f, "register {first} - register {second}"),
            Operation::Multiply => write!(f, "register {first} * register {second}"),
            Operation::Quotient => {
                write!(f, "the quotient of register {first} by register {second}")
            }
            Operation::Remainder => {
                write!(f, "the remainder of register {first} by register {second}")
            }
            Operation::Less => write!(f, "1 if register {first} < register {second}, else 0"),
            Operation::Same => write!(f, "1 if register {first} = register {second}, else 0"),
        }
    }
}

// An instruction in words.
#[derive(Clone, Copy)]
struct Step(Instruction);

impl fmt::Display for Step {
    fn fmt<W: fmt::Write>(&self, f: &mut fmt::Formatter<W>) -> fmt::Result {
        match self.0 {
            Instruction::Skip => f.write_str("skip"),
            Instruction::Set { target, number } => write!(f, "set register {target} to {number}"),
            Instruction::Compute {
                operation,
                target,
                first,
                second,
            } => {
                let computed = Computed {
                    operation,
                    first,
                    second,
                };
                write!(f, "register {target} becomes {computed}")
            }
            Instruction::Jump { first, place } => {
                write!(f, "jump to {place} if register {first} is not 0")
            }
            Instruction::Input { target, channel } => {
                write!(f, "in from channel {channel} to register {target}")
            }
            Instruction::Output { first, channel } => {
                write!(f, "out of register {first} to channel {channel}")
            }
            Instruction::Stop => f.write_str("stop"),
        }
    }
}

// Prints a line for each row of a table, with what it is in words.
fn list_rows<T: Copy, R: fmt::Display + Drop, F: Fn(T) -> R>(
    rt: &HostRuntime,
    name: &str,
    rows: &[T],
    in_words: F,
) -> io::Result<()>
    requires { F.IsAlwaysCallable in_words }
{
    for (i, row) in rows.iter().enumerate() {
        println!(rt; "{name} {i}: {}", in_words(*row))?;
    }
    Ok(())
}

// What should have stood at the byte of a fault.
fn expected(fault: Fault) -> &'static str {
    match (fault.refusal, fault.part, fault.byte) {
        (Refusal::Short | Refusal::Head, Part::Head, 0) => "the number of levels, 1 to 16",
        (Refusal::Short | Refusal::Head, Part::Head, _) => "the number of channels, 0 to 16",
        (Refusal::Short | Refusal::Head, Part::Count, _) =>
            "the number of instructions, 1 to 256, in two bytes, low byte first",
        (Refusal::Short, _, _) =>
            "the rest of a record: its map byte and every field that the map announces",
        (Refusal::Map, Part::Channel(_), _) => "a map of the bits 0 and 1 at most",
        (Refusal::Map, _, _) =>
            "a map without bit 7 and without a field that the kind does not use",
        (Refusal::Zero, _, _) => "a field that is not 0, or a map without it",
        (Refusal::Range, Part::Channel(_), _) =>
            "a direction of 0 or 1 and a level below the number of levels",
        (Refusal::Range, _, _) =>
            "a kind of 0 to 12, registers below 16, a place up to the number of instructions, and a channel of the instruction's direction",
        _ => "the end of the file",
    }
}

fn list_fault(rt: &HostRuntime, fault: Fault) -> io::Result<()> {
    let Fault {
        refusal,
        byte,
        part,
    } = fault;
    let number = refusal.number();
    let name = refusal.name();
    println!(rt; "refused: {number} {name} at byte {byte}, {}", Named(part))?;
    println!(rt; "expected: {}", expected(fault))
}

fn list_script(rt: &HostRuntime, script: &Script) -> io::Result<()> {
    println!(rt; "levels: {}", script.levels)?;
    list_rows(rt, "channel", script.channels(), Wire)?;
    list_rows(rt, "instruction", script.instructions(), Step)
}

// A listing has several lines, and a blank one ends it.
pub fn list_file(rt: &HostRuntime, file: &[u8]) -> io::Result<()> {
    match read_script(file) {
        Ok(script) => list_script(rt, &script)?,
        Err(fault) => list_fault(rt, fault)?,
    }
    println!(rt)
}

// Parts, faults and scripts as other programs read them.
use refusal::{Fault, Part};
use script::accepted::Script;
use script::parts::{Channel, Fields, Instruction};
use std::fmt;

// The part that a fault is in. A struct of one field, here and below: a crate may not implement `Display` for a type of
// another crate.
#[derive(Clone, Copy)]
pub struct Named(pub Part);

impl fmt::Display for Named {
    fn fmt<W: fmt::Write>(&self, f: &mut fmt::Formatter<W>) -> fmt::Result {
        match self.0 {
            Part::Head => f.write_str("head"),
            Part::Channel(index) => write!(f, "channel {index}"),
            Part::Count => f.write_str("count"),
            Part::Instruction(index) => write!(f, "instruction {index}"),
            Part::Tail => f.write_str("tail"),
        }
    }
}

// Why a file is refused, and where.
#[derive(Clone, Copy)]
pub struct Told(pub Fault);

impl fmt::Display for Told {
    fn fmt<W: fmt::Write>(&self, f: &mut fmt::Formatter<W>) -> fmt::Result {
        let Fault {
            refusal,
            byte,
            part,
        } = self.0;
        write!(
            f,
            "refused {} byte {byte} {}",
            refusal.number(),
            Named(part)
        )
    }
}

// A channel, by its numbers.
#[derive(Clone, Copy)]
struct ChannelFields(Channel);

impl fmt::Display for ChannelFields {
    fn fmt<W: fmt::Write>(&self, f: &mut fmt::Formatter<W>) -> fmt::Result {
        let Channel { direction, level } = self.0;
        write!(f, "{}:{level}", direction.code())
    }
}

// An instruction, by the seven fields that a file has for it.
#[derive(Clone, Copy)]
struct InstructionFields(Instruction);

impl fmt::Display for InstructionFields {
    fn fmt<W: fmt::Write>(&self, f: &mut fmt::Formatter<W>) -> fmt::Result {
        let Fields {
            kind,
            target,
            first,
            second,
            number,
            place,
            channel,
        } = self.0.fields();
        write!(
            f,
            "{kind},{target},{first},{second},{number},{place},{channel}"
        )
    }
}

// Writes each row after a blank, into one line; `list_rows` prints a line for each, with its number.
fn write_rows<W: fmt::Write, T: Copy, R: fmt::Display + Drop, F: Fn(T) -> R>(
    f: &mut fmt::Formatter<W>,
    rows: &[T],
    shown: F,
) -> fmt::Result
    requires { F.IsAlwaysCallable shown }
{
    for row in rows {
        write!(f, " {}", shown(*row))?;
    }
    Ok(())
}

// The channels and the instructions of a script, field by field.
#[derive(Clone, Copy)]
pub struct Shown<'a>(pub &'a Script);

impl fmt::Display for Shown<'_> {
    fn fmt<W: fmt::Write>(&self, f: &mut fmt::Formatter<W>) -> fmt::Result {
        f.write_str("channels")?;
        write_rows(f, self.0.channels(), ChannelFields)?;
        f.write_str(" instructions")?;
        write_rows(f, self.0.instructions(), InstructionFields)
    }
}

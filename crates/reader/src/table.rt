// Tables of the records of a file.
ghost use Rattle.std.specs.Prelude.{ℕ, List, length, Result};
ghost use Rattle.refusal.specs.declared.Fault.{Fault};
ghost use Rattle.format.specs.Reading.{read_channel, read_instruction, read_many};
ghost use Rattle.reader.specs.Filled.{Fills};
ghost use Rattle.reader.specs.Left.{Gives};

use crate::unread::Unread;
use record_reader::channel::read_channel;
use record_reader::instruction::InstructionReader;
use refusal::{Fault, Part};
use script::parts::{Channel, Instruction};

// What reads the records of one kind. Each reader makes the site and what is left by itself: where `read_records` does, a
// reader has two facts and two functions in place of one each, and the loop an answer by hand.
pub(crate) trait ReadRecord<T> {
    // What reading answers for the record with an index, at the front of what is left of a file of a length.
    ghost one: { Self → ℕ → ℕ → List ℕ → Result (T × List ℕ) Fault };

    fn read<'a>(&self, index: usize, unread: Unread<'a>) -> Result<(T, Unread<'a>), Fault>
        ensures { Gives unread.entry.end (one self.now unread.entry.end index unread.entry.bytes.now) result };
}

// Reads channels, in a script of so many levels. A channel record needs this number alone, so its reading takes it as it is.
#[derive(Clone, Copy)]
pub(crate) struct ChannelReader {
    pub levels: u8,
}

impl ReadRecord<Channel> for ChannelReader {
    ghost one = { λ s end i bs. read_channel end i s.levels bs };

    fn read<'a>(&self, index: usize, unread: Unread<'a>) -> Result<(Channel, Unread<'a>), Fault> {
        let site = unread.site(Part::Channel(index));
        let (channel, bytes) = read_channel(site, self.levels, unread.bytes)?;
        Ok((channel, unread.up_to(bytes)))
    }
}

impl<'c> ReadRecord<Instruction> for InstructionReader<'c> {
    ghost one = { λ s end i bs. read_instruction end i s.channels.now s.count bs };

    fn read<'a>(
        &self,
        index: usize,
        unread: Unread<'a>,
    ) -> Result<(Instruction, Unread<'a>), Fault> {
        let site = unread.site(Part::Instruction(index));
        let (instruction, bytes) = self.read_at(site, unread.bytes)?;
        Ok((instruction, unread.up_to(bytes)))
    }
}

// Reads a record into each slot of the table, one after another; what is left then.
#[tactic(auto, using(crate::proofs::Many::more))]
pub(crate) fn read_records<'a, T: Copy, R: ReadRecord<T>>(
    reader: &R,
    table: &mut [T],
    unread: Unread<'a>,
) -> Result<Unread<'a>, Fault>
    ensures { Fills unread.entry.end (read_many (R.one reader.now unread.entry.end) (length table.old) 0 unread.entry.bytes.now) table.new result }
{
    let mut rest = unread;
    for (i, slot) in table.iter_mut().enumerate() {
        let (record, after) = reader.read(i, rest)?;
        *slot = record;
        rest = after;
    }
    Ok(rest)
}

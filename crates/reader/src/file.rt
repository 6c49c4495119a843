// Whole files.
ghost use Rattle.std.specs.Prelude.{◌≡◌, ◌-◌, ◌≤◌, length, IfOk};
ghost use Rattle.refusal.specs.declared.Refusal.TheVariants.{Short};
ghost use Rattle.script.specs.Laws.{Counted};
ghost use Rattle.format.specs.Reading.{read_count, read_file, read_head, site_at};
ghost use Rattle.format.specs.Refusals.{Reads, ReadsBack};
ghost use Rattle.format.specs.Rules.{fault};
ghost use Rattle.reader.specs.Left.{Gives};
ghost use Rattle.reader.specs.Parsed.{Parses};

use crate::table::{ChannelReader, read_records};
use crate::unread::Unread;
use format::layout::Site;
use record_reader::instruction::InstructionReader;
use refusal::{Fault, Part, Refusal};
use script::accepted::Script;
use script::parts::{Channel, Instruction};

impl<'a> Unread<'a> {
    // The number of the first byte that is left.
    fn place(self) -> usize
        ensures { result ≡ self.entry.end - length self.entry.bytes.now }
    {
        self.end - self.bytes.len()
    }

    // The same file, with no more left than those bytes at its end.
    pub(crate) fn up_to(self, bytes: &'a [u8]) -> Self
        requires { length bytes.now ≤ length self.bytes.now }
        ensures end { result.end ≡ self.entry.end }
        ensures bytes { result.bytes.now ≡ bytes.now }
    {
        Unread {
            end: self.end,
            bytes,
        }
    }

    // The site of the record that comes next.
    pub(crate) fn site(self, part: Part) -> Site
        ensures { result ≡ site_at self.entry.end part self.entry.bytes.now }
    {
        Site {
            length: self.end,
            part,
            map_at: self.place(),
        }
    }

    // The bytes that are left are too few for that part.
    fn short(self, part: Part) -> Fault
        ensures { result ≡ fault Short self.entry.end part }
    {
        self.site(part).fault(Refusal::Short, self.end)
    }

    // What comes next is no such part.
    fn wrong(self, refusal: Refusal, part: Part) -> Fault
        ensures { result ≡ fault refusal (self.entry.end - length self.entry.bytes.now) part }
    {
        self.site(part).fault(refusal, self.place())
    }

    // The number of levels or of channels, within its bounds.
    fn read_head(self, low: u8, high: u8) -> Result<(u8, Self), Fault>
        ensures bounds { IfOk result (λ x. (low ≤ x.0) × (x.0 ≤ high)) }
        ensures gives { Gives self.entry.end (read_head self.entry.end low high self.entry.bytes.now) result }
    {
        let (b, bytes) = self.bytes.split_first().ok_or(self.short(Part::Head))?;
        if !(low..=high).contains(b) {
            return Err(self.wrong(Refusal::Head, Part::Head));
        }
        Ok((*b, self.up_to(bytes)))
    }

    // The number of instructions, in two bytes.
    fn read_count(self) -> Result<(u16, Self), Fault>
        ensures bounds { IfOk result (λ x. Counted x.0) }
        ensures gives { Gives self.entry.end (read_count self.entry.end self.entry.bytes.now) result }
    {
        let (front, bytes) = self
            .bytes
            .split_first_chunk()
            .ok_or(self.short(Part::Count))?;
        let count = u16::from_le_bytes(*front);
        if !(1..=256).contains(&count) {
            return Err(self.wrong(Refusal::Head, Part::Count));
        }
        Ok((count, self.up_to(bytes)))
    }
}

// The file from its front to its end.
fn parse(bytes: &[u8]) -> Result<Script, Fault>
    ensures { Parses (read_file bytes.now) result }
{
    let unread = Unread {
        end: bytes.len(),
        bytes,
    };
    let (levels, unread) = unread.read_head(1, 16)?;
    let (c, unread) = unread.read_head(0, 16)?;
    let channel_count = usize::from(c);
    let mut channels = [Channel::BLANK; 16];
    let reader = ChannelReader { levels };
    let unread = read_records(&reader, &mut channels[..channel_count], unread)?;
    let (count, unread) = unread.read_count()?;
    let instruction_count = usize::from(count);
    let mut instructions = [Instruction::Skip; 256];
    let reader = InstructionReader {
        channels: &channels[..channel_count],
        count,
    };
    let unread = read_records(&reader, &mut instructions[..instruction_count], unread)?;
    if !unread.bytes.is_empty() {
        return Err(unread.wrong(Refusal::Tail, Part::Tail));
    }
    Ok(Script {
        levels,
        channel_count,
        channels,
        instruction_count,
        instructions,
    })
}

// The script whose file this is, or the first fault of a file that is no script's. Two functions, since `parse` is proved
// against reading as a function, and this one against the relations that say which fault is the first.
pub fn read_script(bytes: &[u8]) -> Result<Script, Fault>
    ensures reads { Reads bytes.now result }
    ensures back { ReadsBack bytes.now result }
{
    parse(bytes)
}

// The accepted script: every value of the type keeps the laws, wherever it came from.
ghost use Rattle.std.specs.Prelude.{◌≡◌, ◌<◌, ◌≤◌, length, take, slice_index_or, MatchOption};
ghost use Rattle.script.specs.Judging.{judging};
ghost use Rattle.script.specs.Laws.{Headed, Counted, Below, Sound, Blank, blank};
ghost use Rattle.script.specs.declared.parts.Instruction.TheVariants.{Skip};

use crate::parts::{Channel, Direction, Instruction};
use refusal::Refusal;

// The first `channel_count` channels and the first `instruction_count` instructions count. The slots after them
// hold the blank record, so that two scripts are equal exactly where they are the same value. The tables are arrays
// with a count, and no `Vec`: a script is held in fixed memory, copied as it stands, and nothing that is sold allocates.
#[derive(Clone, Copy)]
pub struct Script {
    pub levels: u8,
    pub channel_count: usize,
    pub channels: [Channel; 16],
    pub instruction_count: usize,
    pub instructions: [Instruction; 256],
    ghost headed: { Headed levels channel_count },
    ghost counted: { Counted instruction_count },
    ghost below: { Below levels channels channel_count },
    ghost sound: { Sound channels channel_count instruction_count instructions instruction_count },
    ghost tables: { (length channels ≡ 16) × (length instructions ≡ 256) },
    ghost unused_channels: { Blank blank channel_count channels },
    ghost unused_instructions: { Blank Skip instruction_count instructions },
}

impl Script {
    // The channels that count.
    pub fn channels(&self) -> &[Channel]
        ensures { result.now ≡ take self.now.channel_count self.now.channels }
    {
        &self.channels[..self.channel_count]
    }

    // The instructions that count.
    pub fn instructions(&self) -> &[Instruction]
        ensures { result.now ≡ take self.now.instruction_count self.now.instructions }
    {
        &self.instructions[..self.instruction_count]
    }

    // The instruction at that place, if there is one.
    pub fn instruction_at(&self, place: u16) -> Option<Instruction>
        ensures { MatchOption result (self.now.instruction_count ≤ place) (λ i. (place < self.now.instruction_count) × (i ≡ slice_index_or self.now.instructions place Skip)) }
    {
        self.instructions().get(usize::from(place)).copied()
    }

    // Refuses a number that is no channel, or a channel of the other direction.
    pub fn judge(&self, channel: u8, direction: Direction) -> Result<(), Refusal>
        ensures { result ≡ judging direction self.now.channels self.now.channel_count channel }
    {
        let channel = self
            .channels()
            .get(usize::from(channel))
            .ok_or(Refusal::Channel)?;
        if channel.direction != direction {
            return Err(Refusal::Direction);
        }
        Ok(())
    }
}

// Building a script by hand, from parts that anybody may have made.
ghost use Rattle.std.specs.Prelude.{◌≡◌, ℕ, ◌<◌, ◌≤◌, true, false, ◌++◌, length, take, MatchResult};
ghost use Rattle.refusal.specs.declared.Part.TheVariants as part;
ghost use Rattle.refusal.specs.declared.Refusal.TheVariants as why;
ghost use Rattle.script.specs.Flaws.{Builds, FirstHigh, FirstUnsound, flaw};
ghost use Rattle.script.specs.Laws.{Below, Blank, Counted, Headed, Sound, blank, directed, sound};
ghost use Rattle.script.specs.declared.parts.Instruction.TheVariants.{Skip};

use crate::accepted::Script;
use crate::parts::{Channel, Direction, Instruction};
use refusal::{Flaw, Part, Refusal};

// Is `k` one of the channels, and of that direction?
pub fn is_directed(channels: &[Channel], k: usize, direction: Direction) -> bool
    ensures { result ≡ directed direction channels.now (length channels.now) k }
{
    channels
        .get(k)
        .is_some_and(|channel| channel.direction == direction)
}

// Does the instruction keep its law, in a script of `count` instructions?
fn is_sound(channels: &[Channel], count: usize, instruction: Instruction) -> bool
    ensures { result ≡ sound channels.now (length channels.now) count instruction }
{
    match instruction {
        Instruction::Skip | Instruction::Stop => true,
        Instruction::Set { target, number: _ } => target < 16,
        Instruction::Compute {
            operation: _,
            target,
            first,
            second,
        } => target < 16 && first < 16 && second < 16,
        Instruction::Jump { first, place } => first < 16 && usize::from(place) <= count,
        Instruction::Input { target, channel } => target < 16
            && is_directed(channels, usize::from(channel), Direction::In),
        Instruction::Output { first, channel } => first < 16
            && is_directed(channels, usize::from(channel), Direction::Out),
    }
}

// The flaw, unless the law holds.
fn refuse_unless(holds: bool, refusal: Refusal, part: Part) -> Result<(), Flaw>
    ensures { MatchResult result (λ _. holds ≡ true) (λ f. (f ≡ flaw refusal part) × (holds ≡ false)) }
{
    if holds {
        Ok(())
    } else {
        Err(Flaw { refusal, part })
    }
}

fn judge_head(levels: u8, channels: usize) -> Result<(), Flaw>
    ensures { MatchResult result (λ _. Headed levels channels) (λ f. (f ≡ flaw why.Head part.Head) × (Headed levels channels → ⊥)) }
{
    refuse_unless(
        matches!(levels, 1..=16) && channels <= 16,
        Refusal::Head,
        Part::Head,
    )
}

// The flaw of a channel or an instruction that breaks its law.
fn out_of_range(part: Part) -> Flaw
    ensures { result ≡ flaw why.Range part }
{
    Flaw {
        refusal: Refusal::Range,
        part,
    }
}

// The search for the first flaw is `position`. It stands twice, since channels and instructions each have a law and a part
// of their own, and what one function would have to say of a law that it is given is longer than both.
fn judge_channels(levels: u8, channels: &[Channel]) -> Result<(), Flaw>
    ensures { MatchResult result (λ _. Below levels channels.now (length channels.now)) (λ f. ((i : ℕ) × (f ≡ flaw why.Range (part.Channel i)) × FirstHigh levels channels.now i)) }
{
    channels
        .iter()
        .position(|channel| channel.level >= levels)
        .map_or(Ok(()), |i| Err(out_of_range(Part::Channel(i))))
}

fn judge_count(count: usize) -> Result<(), Flaw>
    ensures { MatchResult result (λ _. Counted count) (λ f. (f ≡ flaw why.Head part.Count) × (Counted count → ⊥)) }
{
    refuse_unless(matches!(count, 1..=256), Refusal::Head, Part::Count)
}

fn judge_instructions(channels: &[Channel], instructions: &[Instruction]) -> Result<(), Flaw>
    ensures { MatchResult result (λ _. Sound channels.now (length channels.now) (length instructions.now) instructions.now (length instructions.now)) (λ f. ((i : ℕ) × (f ≡ flaw why.Range (part.Instruction i)) × FirstUnsound channels.now instructions.now i)) }
{
    let count = instructions.len();
    instructions
        .iter()
        .position(|instruction| !is_sound(channels, count, *instruction))
        .map_or(Ok(()), |i| Err(out_of_range(Part::Instruction(i))))
}

// A table that begins with the items and is blank past them.
fn filled<T: Copy, const N: usize>(blank: T, items: &[T]) -> [T; N]
    requires { length items.now ≤ N }
    ensures front { take (length items.now) result ≡ items.now }
    ensures size { length result ≡ N }
    ensures unused { Blank blank (length items.now) result }
{
    let mut table = [blank; N];
    table[..items.len()].copy_from_slice(items);
    table
}

impl Script {
    // The script of these parts, or the first flaw: bounds of the head, then channels, the count and instructions.
    pub fn new(
        levels: u8,
        channels: &[Channel],
        instructions: &[Instruction],
    ) -> Result<Script, Flaw>
        ensures { Builds (record { levels = levels; channels = channels.now; instructions = instructions.now }) result }
    {
        judge_head(levels, channels.len())?;
        judge_channels(levels, channels)?;
        judge_count(instructions.len())?;
        judge_instructions(channels, instructions)?;
        Ok(Script {
            levels,
            channel_count: channels.len(),
            channels: filled(Channel::BLANK, channels),
            instruction_count: instructions.len(),
            instructions: filled(Instruction::Skip, instructions),
        })
    }
}

// What is run: a script, for how long, and how often the world comes by.
ghost use Rattle.std.specs.Prelude.{◌≤◌};

use refusal::Flaw;
use script::accepted::Script;
use script::parts::{Channel, Direction, Instruction, Operation};
use std::fmt;

#[derive(Clone, Copy)]
pub enum Kind {
    // One long visit that computes.
    Compute,
    // One long visit that reads and writes. A copy gets 64 values of a channel and then 0, so most ins default.
    Exchange,
    // The same in short visits, where ins get their values from the host and from tapes.
    Visits,
}

#[derive(Clone, Copy)]
pub struct Load {
    pub script: Script,
    pub visits: usize,
    // Turns of each visit.
    pub turns: usize,
    // The world comes by before every so many turns.
    pub pace: usize,
    ghost paced: { 1 ≤ pace },
}

fn channel(direction: Direction, level: u8) -> Channel {
    Channel { direction, level }
}

// Two channels of the lowest level and two of the highest, an in and an out of each.
fn channels(levels: u8) -> [Channel; 4] {
    let top = levels.saturating_sub(1);
    [
        channel(Direction::In, 0),
        channel(Direction::Out, 0),
        channel(Direction::In, top),
        channel(Direction::Out, top),
    ]
}

fn set(target: u8, number: i32) -> Instruction {
    Instruction::Set { target, number }
}

fn compute(operation: Operation, target: u8, first: u8, second: u8) -> Instruction {
    Instruction::Compute {
        operation,
        target,
        first,
        second,
    }
}

// A loop that computes, and tells after every 250 rounds what it has.
fn computing(levels: u8) -> Result<Script, Flaw> {
    Script::new(
        levels,
        &channels(levels),
        &[
            set(0, 1),
            set(1, 1_664_525),
            set(2, 250),
            compute(Operation::Multiply, 3, 3, 1),
            compute(Operation::Add, 3, 3, 0),
            compute(Operation::Subtract, 2, 2, 0),
            Instruction::Jump { first: 2, place: 3 },
            Instruction::Output {
                first: 3,
                channel: 1,
            },
            Instruction::Jump { first: 0, place: 2 },
        ],
    )
}

// A loop that reads and writes at the lowest level and at the highest.
fn exchanging(levels: u8) -> Result<Script, Flaw> {
    Script::new(
        levels,
        &channels(levels),
        &[
            set(0, 1),
            Instruction::Input {
                target: 1,
                channel: 0,
            },
            Instruction::Output {
                first: 1,
                channel: 1,
            },
            Instruction::Input {
                target: 2,
                channel: 2,
            },
            Instruction::Output {
                first: 2,
                channel: 3,
            },
            Instruction::Jump { first: 0, place: 1 },
        ],
    )
}

impl fmt::Display for Kind {
    fn fmt<W: fmt::Write>(&self, f: &mut fmt::Formatter<W>) -> fmt::Result {
        f.write_str(match self {
            Kind::Compute => "compute",
            Kind::Exchange => "exchange",
            Kind::Visits => "visits",
        })
    }
}

impl Load {
    // The load of that kind with so many turns in all.
    pub fn of(kind: Kind, levels: u8, turns: usize) -> Result<Load, Flaw> {
        match kind {
            Kind::Compute => Ok(Load {
                script: computing(levels)?,
                visits: 1,
                turns,
                pace: 1024,
            }),
            Kind::Exchange => Ok(Load {
                script: exchanging(levels)?,
                visits: 1,
                turns,
                pace: 8,
            }),
            Kind::Visits => Ok(Load {
                script: exchanging(levels)?,
                visits: turns / 500,
                turns: 500,
                pace: 8,
            }),
        }
    }
}

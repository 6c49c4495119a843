// The commands, and the lines that give them.
ghost use Rattle.std.specs.Option.{option_map};
ghost use Rattle.text.specs.Answers.{Gives};
ghost use Rattle.text.specs.Arguments.{Takes};
ghost use Rattle.console.specs.Commands.{asked, by_kind, host_asked, levels_asked, named, request, request_of, turns_asked};
ghost use Rattle.text.specs.Words.{left};

use std::alloc::Global;
use text::error::LineError;
use text::lines::is_comment;
use text::words::Words;
use verb::{HostKind, Shape, Verb};

// More turns are asked for by more than one line.
const MOST_TURNS: usize = 10000000;

// What a line asks for, with the files and numbers that it gives.
#[derive(Drop)]
pub enum Command {
    Read(Vec<u8>),
    Show(Vec<u8>),
    // With the index of a record.
    Split(Vec<u8>, usize),
    // With the room of a buffer.
    Write(Vec<u8>, usize),
    List(Vec<u8>),
    Ladder(usize),
    Compartments(usize),
    // 16 rows, whatever is given: an order map has so many.
    Map { levels: usize, rows: [u16; 16] },
    Flows { from: usize, to: usize },
    Pick { place: usize, mask: usize },
    SlotHost,
    // The capacity of each channel; the first that is 0 ends them.
    OwnHost([u16; 16]),
    StripHost { count: usize, entries: usize },
    // A channel and a value, as in `Feed` and `Add`.
    Put(usize, i32),
    Take(usize),
    Count,
    Held(usize),
    Space(usize),
    Entries,
    Script(Vec<u8>),
    Open,
    Feed(usize, i32),
    Collect(usize),
    Turn,
    Turns(usize),
    Ask(usize),
    Close,
    // A plain run begins; the four after it are its calls.
    Plain,
    Give(usize),
    Add(usize, i32),
    Step,
    Copy,
    Help,
}

impl Command {
    // The levels that the words ask for.
    fn levels(words: &mut Words) -> Result<Command, LineError>
        ensures { Takes request (levels_asked (left words.old)) result (left words.new) }
    {
        match Shape::of(words.word()?)? {
            Shape::Ladder => Ok(Command::Ladder(words.number()?)),
            Shape::Compartments => Ok(Command::Compartments(words.number()?)),
            Shape::Map => Ok(Command::Map {
                levels: words.number()?,
                rows: words.rows()?,
            }),
        }
    }

    // A host of that kind, with what the words say of it.
    pub fn of_kind(kind: HostKind, words: &mut Words) -> Result<Command, LineError>
        ensures { Takes request (by_kind kind (left words.old)) result (left words.new) }
    {
        match kind {
            HostKind::Slot => Ok(Command::SlotHost),
            HostKind::Caps => Ok(Command::OwnHost(words.capacity_table()?)),
            HostKind::Strip => Ok(Command::StripHost {
                count: words.number()?,
                entries: words.room()?,
            }),
        }
    }

    // The host that the words ask for.
    fn host(words: &mut Words) -> Result<Command, LineError>
        ensures { Takes request (host_asked (left words.old)) result (left words.new) }
    {
        let kind = HostKind::of(words.word()?)?;
        Command::of_kind(kind, words)
    }

    // The turns that the words ask for. A test, as `room_of` of the lines' words has: a function of bound and error would be as long.
    fn turns(words: &mut Words) -> Result<Command, LineError>
        ensures { Takes request (turns_asked (left words.old)) result (left words.new) }
    {
        let count = words.number()?;
        if count <= MOST_TURNS {
            Ok(Command::Turns(count))
        } else {
            Err(LineError::Turns)
        }
    }

    // The command of that verb, with the arguments that it takes from the words.
    // Names apart from what they ask for: the verb picks the reader.
    pub fn of(verb: Verb, heap: Global, words: &mut Words) -> Result<Command, LineError>
        ensures { Takes request (asked verb (left words.old)) result (left words.new) }
    {
        match verb {
            Verb::Read => Ok(Command::Read(words.bytes(heap)?)),
            Verb::Show => Ok(Command::Show(words.bytes(heap)?)),
            Verb::Split => Ok(Command::Split(words.bytes(heap)?, words.number()?)),
            Verb::Write => Ok(Command::Write(words.bytes(heap)?, words.room()?)),
            Verb::List => Ok(Command::List(words.bytes(heap)?)),
            Verb::Levels => Command::levels(words),
            Verb::Flows => Ok(Command::Flows {
                from: words.number()?,
                to: words.number()?,
            }),
            Verb::Pick => Ok(Command::Pick {
                place: words.number()?,
                mask: words.mask()?,
            }),
            Verb::Host => Command::host(words),
            Verb::Put => Ok(Command::Put(words.number()?, words.value()?)),
            Verb::Take => Ok(Command::Take(words.number()?)),
            Verb::Count => Ok(Command::Count),
            Verb::Held => Ok(Command::Held(words.number()?)),
            Verb::Space => Ok(Command::Space(words.number()?)),
            Verb::Entries => Ok(Command::Entries),
            Verb::Script => Ok(Command::Script(words.bytes(heap)?)),
            Verb::Open => Ok(Command::Open),
            Verb::Feed => Ok(Command::Feed(words.number()?, words.value()?)),
            Verb::Collect => Ok(Command::Collect(words.number()?)),
            Verb::Turn => Ok(Command::Turn),
            Verb::Turns => Command::turns(words),
            Verb::Ask => Ok(Command::Ask(words.number()?)),
            Verb::Close => Ok(Command::Close),
            Verb::Plain => Ok(Command::Plain),
            Verb::Give => Ok(Command::Give(words.number()?)),
            Verb::Add => Ok(Command::Add(words.number()?, words.value()?)),
            Verb::Step => Ok(Command::Step),
            Verb::Copy => Ok(Command::Copy),
            Verb::Help => Ok(Command::Help),
        }
    }

    // The command of that name, with the arguments that it takes from the words.
    fn named(name: &[u8], heap: Global, words: &mut Words) -> Result<Command, LineError>
        ensures { Takes request (named name.now (left words.old)) result (left words.new) }
    {
        Command::of(Verb::of(name).ok_or(LineError::Unknown)?, heap, words)
    }

    // What a line asks for; nothing if it is blank or for people.
    pub fn parse(heap: Global, line: &[u8]) -> Result<Option<Command>, LineError>
        ensures { Gives (option_map request) (request_of line.now) result }
    {
        let mut words = Words::new(line);
        let Some(name) = words.next_word().filter(|name| !is_comment(name)) else {
            return Ok(None);
        };
        let command = Command::named(name, heap, &mut words)?;
        words.end()?;
        Ok(Some(command))
    }
}

// Every refusal of the product, with its number, and the place that a refusal of a file tells.
#![tactic(auto)]

ghost use Rattle.std.specs.Prelude.{◌≡◌};
ghost use Rattle.refusal.specs.Numbers.{number_of, name_of};

// Why a call is refused. The first six are the author's, then three of the maker's, four of the caller's,
// and three that a visit's course brings.
#[derive(Clone, Copy, PartialEq, Eq, Debug)]
pub enum Refusal {
    Short = 1,
    Head,
    Map,
    Zero,
    Range,
    Tail,
    Order,
    Levels,
    Channels,
    Channel,
    Direction,
    Level,
    Buffer,
    Full,
    Empty,
    Spent,
}

impl Refusal {
    // The number by which documents and programs call it. By a method, whose name says so; `u8::from(refusal)` would not.
    pub fn number(self) -> u8
        ensures { result ≡ number_of self }
    {
        self as u8
    }

    // The word by which people call it: by a method too, since no contract of a `Display` says which word it writes.
    pub fn name(self) -> &'static str
        ensures { result.now ≡ name_of self }
    {
        match self {
            Refusal::Short => "SHORT",
            Refusal::Head => "HEAD",
            Refusal::Map => "MAP",
            Refusal::Zero => "ZERO",
            Refusal::Range => "RANGE",
            Refusal::Tail => "TAIL",
            Refusal::Order => "ORDER",
            Refusal::Levels => "LEVELS",
            Refusal::Channels => "CHANNELS",
            Refusal::Channel => "CHANNEL",
            Refusal::Direction => "DIRECTION",
            Refusal::Level => "LEVEL",
            Refusal::Buffer => "BUFFER",
            Refusal::Full => "FULL",
            Refusal::Empty => "EMPTY",
            Refusal::Spent => "SPENT",
        }
    }
}

// The part of a script, or of its file, that a refusal is about; records count from 0.
#[derive(Clone, Copy, PartialEq, Eq, Debug)]
pub enum Part {
    Head,
    Channel(usize),
    Count,
    Instruction(usize),
    Tail,
}

// Why a file is refused, and where: the number of the byte and the part that it is in.
#[derive(Clone, Copy, PartialEq, Eq, Debug)]
pub struct Fault {
    pub refusal: Refusal,
    pub byte: usize,
    pub part: Part,
}

// Why parts make no script, and which part it is.
#[derive(Clone, Copy, PartialEq, Eq, Debug)]
pub struct Flaw {
    pub refusal: Refusal,
    pub part: Part,
}

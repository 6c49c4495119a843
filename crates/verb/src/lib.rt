// The names of the commands.
// `of` and no `TryFrom`: the method's name says no more than that the word is looked up.
#![tactic(auto, using(crate::proofs::Names::same_name, crate::proofs::Names::other_length, crate::proofs::Names::other_head, crate::proofs::Names::other_second, crate::proofs::Names::other_third))]

ghost use Rattle.std.specs.Prelude.{◌≡◌};
ghost use Rattle.verb.specs.Verbs.{host_of, shape_of, verb_of};

use text::error::LineError;

// What a line asks for, by its first word.
#[derive(Clone, Copy, PartialEq, Eq, Debug)]
pub enum Verb {
    Read,
    Show,
    Split,
    Write,
    List,
    Levels,
    Flows,
    Pick,
    Host,
    Put,
    Take,
    Count,
    Held,
    Space,
    Entries,
    Script,
    Open,
    Feed,
    Collect,
    Turn,
    Turns,
    Ask,
    Close,
    Plain,
    Give,
    Add,
    Step,
    Copy,
    Help,
}

impl Verb {
    // The command of that name.
    pub fn of(word: &[u8]) -> Option<Verb>
        ensures { result ≡ verb_of word.now }
    {
        match word {
            b"read" => Some(Verb::Read),
            b"show" => Some(Verb::Show),
            b"split" => Some(Verb::Split),
            b"write" => Some(Verb::Write),
            b"list" => Some(Verb::List),
            b"levels" => Some(Verb::Levels),
            b"flows" => Some(Verb::Flows),
            b"pick" => Some(Verb::Pick),
            b"host" => Some(Verb::Host),
            b"put" => Some(Verb::Put),
            b"take" => Some(Verb::Take),
            b"count" => Some(Verb::Count),
            b"held" => Some(Verb::Held),
            b"space" => Some(Verb::Space),
            b"entries" => Some(Verb::Entries),
            b"script" => Some(Verb::Script),
            b"open" => Some(Verb::Open),
            b"feed" => Some(Verb::Feed),
            b"collect" => Some(Verb::Collect),
            b"turn" => Some(Verb::Turn),
            b"turns" => Some(Verb::Turns),
            b"ask" => Some(Verb::Ask),
            b"close" => Some(Verb::Close),
            b"plain" => Some(Verb::Plain),
            b"give" => Some(Verb::Give),
            b"add" => Some(Verb::Add),
            b"step" => Some(Verb::Step),
            b"copy" => Some(Verb::Copy),
            b"help" => Some(Verb::Help),
            _ => None,
        }
    }
}

// The kinds of regime that levels are made as.
#[derive(Clone, Copy, PartialEq, Eq, Debug)]
pub enum Shape {
    Ladder,
    Compartments,
    Map,
}

impl Shape {
    // The kind of that name, or the error of a line that asks for another.
    pub fn of(word: &[u8]) -> Result<Shape, LineError>
        ensures { result ≡ shape_of word.now }
    {
        match word {
            b"ladder" => Ok(Shape::Ladder),
            b"compartments" => Ok(Shape::Compartments),
            b"map" => Ok(Shape::Map),
            _ => Err(LineError::Shape),
        }
    }
}

// The kinds of host that the tool can make.
#[derive(Clone, Copy, PartialEq, Eq, Debug)]
pub enum HostKind {
    Slot,
    Caps,
    Strip,
}

impl HostKind {
    // The kind of that name, or the error of a line that asks for another.
    pub fn of(word: &[u8]) -> Result<HostKind, LineError>
        ensures { result ≡ host_of word.now }
    {
        match word {
            b"slot" => Ok(HostKind::Slot),
            b"caps" => Ok(HostKind::Caps),
            b"strip" => Ok(HostKind::Strip),
            _ => Err(LineError::Host),
        }
    }
}

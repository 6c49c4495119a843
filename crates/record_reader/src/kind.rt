// The kinds of instruction records.
ghost use Rattle.std.specs.Prelude.{◌≡◌, ◌≤◌, MatchOption};
ghost use Rattle.format.specs.Rules.{uses_channel, uses_first, uses_number, uses_place, uses_second, uses_target};
ghost use Rattle.record_reader.specs.Kinds.{kind_number};

use script::parts::Operation;

// What an instruction does, apart from its fields.
#[derive(Clone, Copy)]
pub(crate) enum Kind {
    Skip,
    Set,
    Compute(Operation),
    Jump,
    Input,
    Output,
    Stop,
}

impl Kind {
    // The kind that has that number in a file: an option and no `TryFrom`, since the caller names the fault.
    pub(crate) fn from_number(number: u32) -> Option<Kind>
        ensures { MatchOption result (13 ≤ number) (λ k. kind_number k ≡ number) }
    {
        match number {
            0 => Some(Kind::Skip),
            1 => Some(Kind::Set),
            2 => Some(Kind::Compute(Operation::Add)),
            3 => Some(Kind::Compute(Operation::Subtract)),
            4 => Some(Kind::Compute(Operation::Multiply)),
            5 => Some(Kind::Compute(Operation::Quotient)),
            6 => Some(Kind::Compute(Operation::Remainder)),
            7 => Some(Kind::Compute(Operation::Less)),
            8 => Some(Kind::Compute(Operation::Same)),
            9 => Some(Kind::Jump),
            10 => Some(Kind::Input),
            11 => Some(Kind::Output),
            12 => Some(Kind::Stop),
            _ => None,
        }
    }

    pub(crate) fn uses_target(self) -> bool
        ensures { result ≡ uses_target (kind_number self) }
    {
        matches!(self, Kind::Set | Kind::Compute(_) | Kind::Input)
    }

    pub(crate) fn uses_first(self) -> bool
        ensures { result ≡ uses_first (kind_number self) }
    {
        matches!(self, Kind::Compute(_) | Kind::Jump | Kind::Output)
    }

    pub(crate) fn uses_second(self) -> bool
        ensures { result ≡ uses_second (kind_number self) }
    {
        matches!(self, Kind::Compute(_))
    }

    pub(crate) fn uses_number(self) -> bool
        ensures { result ≡ uses_number (kind_number self) }
    {
        matches!(self, Kind::Set)
    }

    pub(crate) fn uses_place(self) -> bool
        ensures { result ≡ uses_place (kind_number self) }
    {
        matches!(self, Kind::Jump)
    }

    pub(crate) fn uses_channel(self) -> bool
        ensures { result ≡ uses_channel (kind_number self) }
    {
        matches!(self, Kind::Input | Kind::Output)
    }
}

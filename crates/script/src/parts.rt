// What a script is made of: channels and instructions.
ghost use Rattle.std.specs.Prelude.{◌≡◌, Decides};
ghost use Rattle.script.specs.Equal.{same_channel, same_channel_decides, same_instruction, same_instruction_decides};
ghost use Rattle.script.specs.Kinds.{code_of, kind_of, fields_of};
ghost use Rattle.std.specs.Cmp as Keys;

// Whether values come in by a channel or go out by it, as a file numbers it.
#[derive(Clone, Copy, PartialEq, Eq, Debug)]
pub enum Direction {
    In = 0,
    Out = 1,
}

impl Direction {
    // Its number in a file. By a method, whose name says which number it is; `u8::from(direction)` would not.
    pub fn code(self) -> u8
        ensures { result ≡ code_of self }
    {
        self as u8
    }
}

#[derive(Clone, Copy, Debug)]
pub struct Channel {
    pub direction: Direction,
    pub level: u8,
}

impl Channel {
    // What a table of channels holds past those that count.
    pub const BLANK: Channel = Channel {
        direction: Direction::In,
        level: 0,
    };
}

// By hand, here and for instructions and scripts: each says that it decides equality, for which a derive has no clause, and
// has a body in which a slip can be planted and is refused.
impl PartialEq for Channel {
    ghost eq = { same_channel };

    ghost laws = { Keys.partial_equiv_from_equiv (Keys.decided same_channel same_channel_decides) };

    fn eq(&self, other: &Channel) -> bool
        ensures value { result ≡ same_channel self.now other.now }
        ensures same { Decides result (self.now ≡ other.now) }
    {
        self.direction == other.direction && self.level == other.level
    }
}

impl Eq for Channel {
    ghost laws = { Keys.decided same_channel same_channel_decides };
}

// What is computed from two registers.
#[derive(Clone, Copy, PartialEq, Eq, Debug)]
pub enum Operation {
    Add,
    Subtract,
    Multiply,
    Quotient,
    Remainder,
    Less,
    Same,
}

impl Operation {
    // The number of the instruction kind that computes it. By a match, and no discriminants: these are the kinds of a file, and
    // no numbers of the operations.
    pub fn kind(self) -> u8
        ensures { result ≡ kind_of self }
    {
        match self {
            Operation::Add => 2,
            Operation::Subtract => 3,
            Operation::Multiply => 4,
            Operation::Quotient => 5,
            Operation::Remainder => 6,
            Operation::Less => 7,
            Operation::Same => 8,
        }
    }
}

// One instruction. A field that its kind does not use does not exist.
#[derive(Clone, Copy, Debug)]
pub enum Instruction {
    Skip,
    Set {
        target: u8,
        number: i32,
    },
    Compute {
        operation: Operation,
        target: u8,
        first: u8,
        second: u8,
    },
    Jump {
        first: u8,
        place: u16,
    },
    Input {
        target: u8,
        channel: u8,
    },
    Output {
        first: u8,
        channel: u8,
    },
    Stop,
}

// The seven fields that a file has for an instruction, 0 where its kind does not use one. They stay numbers, also
// the kind: this is what a file holds, and `Instruction` is what it means.
#[derive(Clone, Copy, PartialEq, Eq, Debug, Default)]
pub struct Fields {
    pub kind: u8,
    pub target: u8,
    pub first: u8,
    pub second: u8,
    pub number: i32,
    pub place: u16,
    pub channel: u8,
}

impl Instruction {
    // The number of its kind in a file. By a match: cases that carry something have no `as u8`.
    fn kind(self) -> u8
        ensures { result ≡ (fields_of self).kind }
    {
        match self {
            Instruction::Skip => 0,
            Instruction::Set { .. } => 1,
            Instruction::Compute { operation, .. } => operation.kind(),
            Instruction::Jump { .. } => 9,
            Instruction::Input { .. } => 10,
            Instruction::Output { .. } => 11,
            Instruction::Stop => 12,
        }
    }

    pub fn fields(self) -> Fields
        ensures { result ≡ fields_of self }
    {
        let fields = Fields {
            kind: self.kind(),
            ..Fields::default()
        };
        match self {
            Instruction::Skip | Instruction::Stop => fields,
            Instruction::Set { target, number } => Fields {
                target,
                number,
                ..fields
            },
            Instruction::Compute {
                operation: _,
                target,
                first,
                second,
            } => Fields {
                target,
                first,
                second,
                ..fields
            },
            Instruction::Jump { first, place } => Fields {
                first,
                place,
                ..fields
            },
            Instruction::Input { target, channel } => Fields {
                target,
                channel,
                ..fields
            },
            Instruction::Output { first, channel } => Fields {
                first,
                channel,
                ..fields
            },
        }
    }
}

impl PartialEq for Instruction {
    ghost eq = { same_instruction };

    ghost laws = { Keys.partial_equiv_from_equiv (Keys.decided same_instruction same_instruction_decides) };

    // An instruction is known by its fields.
    fn eq(&self, other: &Instruction) -> bool
        ensures value { result ≡ same_instruction self.now other.now }
        ensures same { Decides result (self.now ≡ other.now) }
    {
        self.fields() == other.fields()
    }
}

impl Eq for Instruction {
    ghost laws = { Keys.decided same_instruction same_instruction_decides };
}

// What a copy holds, and how it goes on.
ghost use Rattle.std.specs.Prelude.{◌≡◌, ◌<◌, ◌≤◌, ◌&&◌, true, false, nat_lt};
ghost use Rattle.meaning.specs.Copies.{assign, first, further, go_on, go_to};
ghost use Rattle.copies.specs.Computed.{computed, computes, goes_on};
ghost use Rattle.copies.specs.Held.{assigns, copy_of, reads};

use crate::arithmetic::apply;
use crate::replica::Replica;
use script::parts::Instruction;

impl Replica {
    // A copy as it begins: at instruction 0, with zeros everywhere.
    pub fn first() -> Replica
        ensures { copy_of result ≡ first }
    {
        Replica {
            next: 0,
            registers: [0; 16],
            positions: [0; 16],
        }
    }

    pub fn next(&self) -> u16
        ensures { result ≡ (copy_of self.now).next }
    {
        self.next
    }

    // 0 for a register that there is not.
    pub fn register(&self, index: u8) -> i32
        ensures { result ≡ (copy_of self.now).registers index }
    {
        self.registers.get(usize::from(index)).copied().unwrap_or(0)
    }

    // 0 for a channel that there is not.
    pub fn position(&self, channel: u8) -> u8
        ensures { result ≡ (copy_of self.now).positions channel }
    {
        self.positions
            .get(usize::from(channel))
            .copied()
            .unwrap_or(0)
    }

    // Is there the register, and a place after the copy's own?
    fn may_assign(&self, target: u8) -> bool
        ensures { result ≡ assigns (copy_of self.now) target }
    {
        target < 16 && self.next < u16::MAX
    }

    // Is there the channel, and a position after the copy's own?
    fn may_go_further(&self, channel: u8) -> bool
        ensures { result ≡ (nat_lt channel 16 && nat_lt ((copy_of self.now).positions channel) 255) }
    {
        channel < 16 && self.position(channel) < u8::MAX
    }

    // Is there all that a read takes?
    fn may_read(&self, target: u8, channel: u8) -> bool
        ensures { result ≡ reads (copy_of self.now) target channel }
    {
        self.may_assign(target) && self.may_go_further(channel)
    }

    pub fn go_to(&mut self, next: u16)
        ensures { copy_of self.new ≡ go_to (copy_of self.old) next }
    {
        self.next = next;
    }

    // The copy goes to the instruction after its own. What may not be done changes nothing; a step answers whether it was
    // done, here and below.
    pub fn go_on(&mut self) -> bool
        ensures answer { result ≡ goes_on (copy_of self.old) }
        ensures done { goes_on (copy_of self.old) ≡ true → copy_of self.new ≡ go_on (copy_of self.old) }
        ensures kept { goes_on (copy_of self.old) ≡ false → self.new ≡ self.old }
    {
        self.jump(self.next.saturating_add(1))
    }

    // The value goes to the register, and the copy goes on.
    pub fn assign(&mut self, target: u8, value: i32) -> bool
        ensures answer { result ≡ assigns (copy_of self.old) target }
        ensures done { assigns (copy_of self.old) target ≡ true → copy_of self.new ≡ assign (copy_of self.old) target value }
        ensures kept { assigns (copy_of self.old) target ≡ false → self.new ≡ self.old }
    {
        if !self.may_assign(target) {
            return false;
        }
        // A test and an index: of an array that `get_mut` lent no more is known than its length.
        self.registers[usize::from(target)] = value;
        self.next += 1;
        true
    }

    // The position in the channel's tape moves on by one.
    pub fn further(&mut self, channel: u8)
        ensures moved { channel < 16 → (copy_of self.old).positions channel < 255 → copy_of self.new ≡ further (copy_of self.old) channel }
        ensures kept { 16 ≤ channel → self.new ≡ self.old }
        ensures last { 255 ≤ (copy_of self.old).positions channel → self.new ≡ self.old }
    {
        if self.may_go_further(channel) {
            // Here too a test and an index.
            self.positions[usize::from(channel)] += 1;
        }
    }

    // The value of a tape goes to the register, and position and copy go on.
    pub fn read(&mut self, target: u8, channel: u8, value: i32) -> bool
        ensures answer { result ≡ reads (copy_of self.old) target channel }
        ensures done { reads (copy_of self.old) target channel ≡ true → copy_of self.new ≡ assign (further (copy_of self.old) channel) target value }
        ensures kept { reads (copy_of self.old) target channel ≡ false → self.new ≡ self.old }
    {
        if !self.may_read(target, channel) {
            return false;
        }
        self.further(channel);
        self.assign(target, value)
    }

    // The copy goes to that place, where there is one after its own.
    fn jump(&mut self, next: u16) -> bool
        ensures answer { result ≡ goes_on (copy_of self.old) }
        ensures done { goes_on (copy_of self.old) ≡ true → copy_of self.new ≡ go_to (copy_of self.old) next }
        ensures kept { goes_on (copy_of self.old) ≡ false → self.new ≡ self.old }
    {
        if self.next == u16::MAX {
            return false;
        }
        self.go_to(next);
        true
    }

    // An instruction that neither takes a value in nor gives one out, in a script that ends at that place. In line: a call would
    // cost as much as most instructions do.
    #[inline(always)]
    pub fn compute(&mut self, instruction: Instruction, end: u16) -> bool
        ensures answer { result ≡ computes (copy_of self.old) instruction }
        ensures done { computes (copy_of self.old) instruction ≡ true → copy_of self.new ≡ computed (copy_of self.old) end instruction }
        ensures kept { computes (copy_of self.old) instruction ≡ false → self.new ≡ self.old }
    {
        match instruction {
            Instruction::Skip => self.go_on(),
            Instruction::Set { target, number } => self.assign(target, number),
            Instruction::Compute {
                operation,
                target,
                first,
                second,
            } => {
                let value = apply(operation, self.register(first), self.register(second));
                self.assign(target, value)
            }
            Instruction::Jump { first, place } => {
                if self.register(first) == 0 {
                    self.go_on()
                } else {
                    self.jump(place)
                }
            }
            Instruction::Input { .. } | Instruction::Output { .. } => self.next < u16::MAX,
            Instruction::Stop => self.jump(end),
        }
    }
}

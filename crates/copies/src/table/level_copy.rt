// A copy that counts its own steps. What may not be done changes nothing.
ghost use Rattle.std.specs.Prelude.{◌≡◌, suc, true, false};
ghost use Rattle.meaning.specs.Copies.{assign, first, further, go_on, go_to};
ghost use Rattle.copies.specs.Computed.{computed};
ghost use Rattle.copies.specs.Held.{Moved, can_assign, can_compute, can_go_on, can_read, can_step, copy_in};

use crate::replica::Replica;
use crate::table::LevelCopy;
use script::parts::Instruction;

// Five calls of one form, each with another step: one function over them would take the step as a closure, and its contract
// would be longer than they are.
impl LevelCopy {
    // A copy as it begins, and no step done.
    pub(crate) fn first() -> LevelCopy
        ensures copy { copy_in result ≡ first }
        ensures steps { result.steps ≡ 0 }
    {
        LevelCopy {
            copy: Replica::first(),
            steps: 0,
        }
    }

    // Can one step more be counted?
    fn can_step(&self) -> bool
        ensures { result ≡ can_step self.now }
    {
        self.steps < u32::MAX
    }

    // One step more is counted.
    fn count(&mut self)
        requires { can_step self.old ≡ true }
        ensures copy { self.new.copy ≡ self.old.copy }
        ensures steps { self.new.steps ≡ suc self.old.steps }
    {
        self.steps += 1;
    }

    // The copy goes to an instruction, in one step. The engine goes by `go_on` and `compute`.
    pub(crate) fn go_to(&mut self, next: u16)
        ensures done { can_step self.old ≡ true → Moved self.old self.new (go_to (copy_in self.old) next) }
        ensures kept { can_step self.old ≡ false → self.new ≡ self.old }
    {
        if self.can_step() {
            self.copy.go_to(next);
            self.count();
        }
    }

    // The copy goes to the instruction after its own, in one step.
    pub(crate) fn go_on(&mut self)
        ensures done { can_go_on self.old ≡ true → Moved self.old self.new (go_on (copy_in self.old)) }
        ensures kept { can_go_on self.old ≡ false → self.new ≡ self.old }
    {
        if self.can_step() && self.copy.go_on() {
            self.count();
        }
    }

    // The value goes to the register, and the copy goes on, in one step.
    pub(crate) fn assign(&mut self, target: u8, value: i32)
        ensures done { can_assign self.old target ≡ true → Moved self.old self.new (assign (copy_in self.old) target value) }
        ensures kept { can_assign self.old target ≡ false → self.new ≡ self.old }
    {
        if self.can_step() && self.copy.assign(target, value) {
            self.count();
        }
    }

    // The same with a value of a tape: the position in it moves on too.
    pub(crate) fn read(&mut self, target: u8, channel: u8, value: i32)
        ensures done { can_read self.old target channel ≡ true → Moved self.old self.new (assign (further (copy_in self.old) channel) target value) }
        ensures kept { can_read self.old target channel ≡ false → self.new ≡ self.old }
    {
        if self.can_step() && self.copy.read(target, channel, value) {
            self.count();
        }
    }

    // An instruction that neither takes a value in nor gives one out, in one step.
    pub(crate) fn compute(&mut self, instruction: Instruction, end: u16)
        ensures done { can_compute self.old instruction ≡ true → Moved self.old self.new (computed (copy_in self.old) end instruction) }
        ensures kept { can_compute self.old instruction ≡ false → self.new ≡ self.old }
    {
        if self.can_step() && self.copy.compute(instruction, end) {
            self.count();
        }
    }
}

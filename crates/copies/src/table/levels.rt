// The copy at a level, and its own steps.
ghost use Rattle.std.specs.Prelude.{◌≡◌, ℕ, suc, true, false};
ghost use Rattle.meaning.specs.Copies.{assign, first, further, go_on, go_to};
ghost use Rattle.copies.specs.Computed.{computed};
ghost use Rattle.copies.specs.Held.{Stepped, copies_of, may_assign, may_compute, may_go_on, may_read, may_step, steps_of};

use crate::table::{Copies, LevelCopy};
use script::parts::Instruction;

// Copies are asked and changed where they stand: to copy one out and store it back costs more than a turn does. They are
// changed by `copies[level as usize]`, since of an array that was lent by `get_mut` no more is known than its length, and an
// index by `usize::from` costs each answer a step more. One function for the five tests of a level would take the step as a
// closure, and its contract (what may be called, what that leaves, that the others stay) be longer than the tests. What a
// step takes are fields of an instruction, another set for each kind.
impl Copies {
    // Every copy as it begins, and no step done.
    pub fn new() -> Copies
        ensures copies { (l : ℕ) → copies_of result l ≡ first }
        ensures steps { (l : ℕ) → steps_of result l ≡ 0 }
    {
        Copies {
            copies: [LevelCopy::first(); 16],
        }
    }

    // The place of the copy's next instruction. From level 16 up there is no copy, and it is answered, here and below, of
    // one as it begins.
    pub fn next(&self, level: u8) -> u16
        ensures { result ≡ (copies_of self.now level).next }
    {
        self.copies
            .get(usize::from(level))
            .map_or(0, |at| at.copy.next())
    }

    pub fn register(&self, level: u8, index: u8) -> i32
        ensures { result ≡ (copies_of self.now level).registers index }
    {
        self.copies
            .get(usize::from(level))
            .map_or(0, |at| at.copy.register(index))
    }

    // Its position in the channel's tape.
    pub fn position(&self, level: u8, channel: u8) -> u8
        ensures { result ≡ (copies_of self.now level).positions channel }
    {
        self.copies
            .get(usize::from(level))
            .map_or(0, |at| at.copy.position(channel))
    }

    // The number of turns that moved it.
    pub fn steps(&self, level: u8) -> u32
        ensures { result ≡ steps_of self.now level }
    {
        self.copies.get(usize::from(level)).map_or(0, |at| at.steps)
    }

    // The copy goes to an instruction, in one step. What may not be done changes nothing, here and below. The engine does not
    // call this: its copies go on by `go_on`, and jump and stop by `compute`.
    pub fn go_to(&mut self, level: u8, next: u16)
        ensures done { may_step self.old level ≡ true → Stepped self.old self.new level (go_to (copies_of self.old level) next) }
        ensures kept { may_step self.old level ≡ false → self.new ≡ self.old }
    {
        if level < 16 {
            self.copies[level as usize].go_to(next);
        }
    }

    // The copy goes to the instruction after its own, in one step.
    pub fn go_on(&mut self, level: u8)
        ensures done { may_go_on self.old level ≡ true → Stepped self.old self.new level (go_on (copies_of self.old level)) }
        ensures kept { may_go_on self.old level ≡ false → self.new ≡ self.old }
    {
        if level < 16 {
            self.copies[level as usize].go_on();
        }
    }

    // The value goes to the register, and the copy goes on, in one step.
    pub fn assign(&mut self, level: u8, target: u8, value: i32)
        ensures done { may_assign self.old level target ≡ true → Stepped self.old self.new level (assign (copies_of self.old level) target value) }
        ensures kept { may_assign self.old level target ≡ false → self.new ≡ self.old }
    {
        if level < 16 {
            self.copies[level as usize].assign(target, value);
        }
    }

    // The same with a value of a tape: the position in it moves on too.
    pub fn read(&mut self, level: u8, target: u8, channel: u8, value: i32)
        ensures done { may_read self.old level target channel ≡ true → Stepped self.old self.new level (assign (further (copies_of self.old level) channel) target value) }
        ensures kept { may_read self.old level target channel ≡ false → self.new ≡ self.old }
    {
        if level < 16 {
            self.copies[level as usize].read(target, channel, value);
        }
    }

    // An instruction that neither takes a value in nor gives one out, in one step, in a script that ends at that place.
    pub fn compute(&mut self, level: u8, instruction: Instruction, end: u16)
        ensures done { may_compute self.old level instruction ≡ true → Stepped self.old self.new level (computed (copies_of self.old level) end instruction) }
        ensures kept { may_compute self.old level instruction ≡ false → self.new ≡ self.old }
    {
        if level < 16 {
            self.copies[level as usize].compute(instruction, end);
        }
    }
}

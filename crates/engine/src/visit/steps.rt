// What the turns of a visit change.
ghost use Rattle.std.specs.Prelude.{◌≡◌, ℕ, suc, ◌<◌, true, [], length};
ghost use Rattle.copies.specs.Computed.{computed, targets};
ghost use Rattle.copies.specs.Held.{copies_of, steps_of, tapes_of};
ghost use Rattle.meaning.specs.Copies.{assign, first, further, go_on};
ghost use Rattle.meaning.specs.declared.answers.Act.TheVariants.{Inner, Took};
ghost use Rattle.engine.specs.Courses.{MayAssign, MayRead, MayStep, Went};

use crate::visit::Course;
use copies::table::Copies;
use copies::tapes::Tapes;
use script::parts::Instruction;

// Level, target, channel and value go side by side, as in `moves`.
impl Course {
    // Every copy and every tape as it begins.
    pub(crate) fn begin() -> Course
        ensures turns { result.turns ≡ 0 }
        ensures copies { (l : ℕ) → copies_of result.copies l ≡ first }
        ensures steps { (l : ℕ) → steps_of result.copies l ≡ 0 }
        ensures tapes { (k : ℕ) → tapes_of result.tapes k ≡ [] }
    {
        Course {
            turns: 0,
            copies: Copies::new(),
            tapes: Tapes::new(),
        }
    }

    // One turn more is counted.
    pub(crate) fn count_turn(&mut self)
        requires { self.old.turns < 1000000 }
        ensures turns { self.new.turns ≡ suc self.old.turns }
        ensures copies { self.new.copies ≡ self.old.copies }
        ensures tapes { self.new.tapes ≡ self.old.tapes }
    {
        self.turns += 1;
    }

    // The copy goes to the instruction after its own, in one step.
    #[tactic(auto, using(crate::proofs::Allowed::goes_on, crate::proofs::Allowed::paced))]
    pub(crate) fn go_on(&mut self, level: u8)
        requires may { MayStep self.old level }
        requires running { (copies_of self.old.copies level).next < 256 }
        ensures { Went self.old self.new level Inner (go_on (copies_of self.old.copies level)) }
    {
        self.copies.go_on(level);
    }

    // The copy does an instruction that neither takes a value in nor gives one out, in one step.
    #[tactic(auto, using(crate::proofs::Allowed::computes, crate::proofs::Allowed::paced))]
    pub(crate) fn compute(&mut self, level: u8, instruction: Instruction, end: u16)
        requires may { MayStep self.old level }
        requires sound { targets instruction ≡ true }
        requires running { (copies_of self.old.copies level).next < 256 }
        ensures { Went self.old self.new level Inner (computed (copies_of self.old.copies level) end instruction) }
    {
        self.copies.compute(level, instruction, end);
    }

    // The value goes to the copy's register, and the copy goes on, in one step.
    #[tactic(auto, using(crate::proofs::Allowed::assigns, crate::proofs::Allowed::paced))]
    pub(crate) fn store(&mut self, level: u8, target: u8, value: i32)
        requires { MayAssign self.old level target }
        ensures { Went self.old self.new level Inner (assign (copies_of self.old.copies level) target value) }
    {
        self.copies.assign(level, target, value);
    }

    // The same with a value of the channel's tape: the copy's position in it moves on too.
    #[tactic(auto, using(crate::proofs::Allowed::reads, crate::proofs::Allowed::paced))]
    pub(crate) fn reuse(&mut self, level: u8, target: u8, channel: u8, value: i32)
        requires { MayRead self.old level target channel }
        ensures { Went self.old self.new level Inner (assign (further (copies_of self.old.copies level) channel) target value) }
    {
        self.copies.read(level, target, channel, value);
    }

    // The same with a value of the host, which the tape gets first.
    pub(crate) fn receive(&mut self, level: u8, target: u8, channel: u8, value: i32)
        requires may { MayRead self.old level target channel }
        requires room { length (tapes_of self.old.tapes channel) < 64 }
        ensures { Went self.old self.new level (Took channel value) (assign (further (copies_of self.old.copies level) channel) target value) }
    {
        self.tapes.push(channel, value);
        self.reuse(level, target, channel, value);
    }
}

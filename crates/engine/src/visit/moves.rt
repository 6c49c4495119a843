// The instructions of a copy.
ghost use Rattle.std.specs.Prelude.{◌≡◌, ◌<◌, length, IfSome, None, Ok};
ghost use Rattle.copies.specs.Held.{copies_of, tapes_of};
ghost use Rattle.copies.specs.Sources.{given};
ghost use Rattle.copies.specs.declared.rules.Source.TheVariants.{Host as from_host};
ghost use Rattle.script.specs.declared.parts.Instruction.TheVariants.{Input, Output};
ghost use Rattle.meaning.specs.Answers.{turned};
ghost use Rattle.meaning.specs.Copies.{nth};
ghost use Rattle.meaning.specs.Visits.{gets, picked, plan, plan_do, read_plan};
ghost use Rattle.engine.specs.Courses.{MayStep};
ghost use Rattle.engine.specs.Serves.{TurnMemory};
ghost use Rattle.engine.specs.Views.{Acts, Fits, Port, Running, frame_of, state_of};

use crate::visit::Visit;
use copies::rules::Source;
use host::calls::Host;
use meaning::answers::{Act, Moved};
use regime::rules::Regime;
use script::parts::Instruction;

// What they may rely on is asked by a word each (Running, Port, Fits). None is an invariant of a visit: one that does not
// fit is a visit too, and refuses. A struct for them would have to lend the visit. Level, target and channel go side by
// side, as they come from the pick and from an instruction's own fields: another set for each kind of instruction, and a
// struct for the set of an in would be taken apart again in what it calls.
impl<R: Regime, H: Host> Visit<R, H> {
    // Where an in of the copy at the level gets its value.
    pub(crate) fn source(&self, level: u8, channel: u8) -> Source
        requires { channel < 16 }
        ensures gives { gets (frame_of R.Regime.order H.Host.channels self.now) (state_of H.Host.channels self.now) level (copies_of self.now.course.copies level) channel ≡ given result (nth ((state_of H.Host.channels self.now).lists channel) 0) }
        ensures host { result ≡ from_host → ((copies_of self.now.course.copies level).positions channel < 64) × (nth (tapes_of self.now.course.tapes channel) ((copies_of self.now.course.copies level).positions channel) ≡ None) }
    {
        let from = self.level_of(channel);
        // Asked first: where the channel does not flow, nothing is looked up.
        if !self.regime.flows(from, level) {
            return Source::Default;
        }
        let position = self.course.copies.position(level, channel);
        let next = self.course.tapes.value(channel, position);
        Source::of(true, position, next, from == level)
    }

    // An in that the host gives its value for, if it holds one.
    fn read_host(&mut self, level: u8, target: u8, channel: u8) -> Option<Act>
        requires running { Running self.old level }
        requires register { target < 16 }
        requires port { Port H.Host.channels self.old channel }
        requires early { (copies_of self.old.course.copies level).positions channel < 64 }
        requires end { length (tapes_of self.old.course.tapes channel) < 64 }
        ensures { Acts R.Regime.order H.Host.channels H.Host.puts H.Host.takes self.old level (λ f s. read_plan (s.copy level) target channel (given from_host (nth (s.lists channel) 0))) result self.new }
    {
        let value = self.host.take(channel).ok()?;
        self.course.receive(level, target, channel, value);
        Some(Act::Took { channel, value })
    }

    // An in of the copy at the level.
    #[tactic(auto, using(meaning::proofs::Listed::nth_none))]
    fn read(&mut self, level: u8, target: u8, channel: u8) -> Option<Act>
        requires running { Running self.old level }
        requires register { target < 16 }
        requires port { Port H.Host.channels self.old channel }
        ensures { Acts R.Regime.order H.Host.channels H.Host.puts H.Host.takes self.old level (λ f s. plan_do f s level (s.copy level) (Input target channel)) result self.new }
    {
        match self.source(level, channel) {
            Source::Default => {
                self.course.store(level, target, 0);
                Some(Act::Defaulted { channel, value: 0 })
            }
            Source::Tape(value) => {
                self.course.reuse(level, target, channel, value);
                Some(Act::Reused { channel, value })
            }
            Source::Host => self.read_host(level, target, channel),
            Source::Owner => None,
        }
    }

    // An out of the copy at the level.
    fn write(&mut self, level: u8, first: u8, channel: u8) -> Option<Act>
        requires running { Running self.old level }
        requires port { Port H.Host.channels self.old channel }
        ensures { Acts R.Regime.order H.Host.channels H.Host.puts H.Host.takes self.old level (λ f s. plan_do f s level (s.copy level) (Output first channel)) result self.new }
    {
        let value = self.course.copies.register(level, first);
        if self.level_of(channel) != level {
            self.course.go_on(level);
            return Some(Act::Withheld { channel, value });
        }
        self.host.put(channel, value).ok()?;
        self.course.go_on(level);
        Some(Act::Wrote { channel, value })
    }

    // One instruction of the copy at the level, or nothing if it cannot go on.
    pub(crate) fn step(&mut self, level: u8) -> Option<Act>
        requires may { MayStep self.old.course level }
        requires fits { Fits R.Regime.order H.Host.channels self.old }
        ensures { Acts R.Regime.order H.Host.channels H.Host.puts H.Host.takes self.old level (λ f s. plan f s level) result self.new }
    {
        let next = self.course.copies.next(level);
        match self.script.instruction_at(next)? {
            Instruction::Input { target, channel } => self.read(level, target, channel),
            Instruction::Output { first, channel } => self.write(level, first, channel),
            inner => {
                self.course
                    .compute(level, inner, self.script.instruction_count as u16);
                Some(Act::Inner)
            }
        }
    }

    // A turn in which that level was picked, or nobody.
    pub(crate) fn advance(&mut self, level: Option<u8>) -> Option<Moved>
        requires unspent { self.old.course.turns < 1000000 }
        requires inside { IfSome level (λ l. l < 16) }
        requires fits { Fits R.Regime.order H.Host.channels self.old }
        ensures frame { frame_of R.Regime.order H.Host.channels self.new ≡ frame_of R.Regime.order H.Host.channels self.old }
        ensures after { state_of H.Host.channels self.new ≡ (picked (frame_of R.Regime.order H.Host.channels self.old) (state_of H.Host.channels self.old) level).0 }
        ensures answer { turned result ≡ (picked (frame_of R.Regime.order H.Host.channels self.old) (state_of H.Host.channels self.old) level).1 }
        ensures memory { TurnMemory H.Host.puts H.Host.takes self.old.host (Ok result) self.new.host }
    {
        self.course.count_turn();
        let level = level?;
        let act = self.step(level)?;
        Some(Moved { level, act })
    }
}

// The calls of a visit.
ghost use Rattle.std.specs.Prelude.{◌≡◌};
ghost use Rattle.host.specs.Channels.{IfAccepted, IfRefused};
ghost use Rattle.meaning.specs.Answers.{ask as asks, collect as collects, collected_by, fed_by, feed as feeds, told_by, turn as turns, turned_by};
ghost use Rattle.meaning.specs.Promises.{Promises};
ghost use Rattle.meaning.specs.Visits.{framed, opened};
ghost use Rattle.engine.specs.Serves.{TurnMemory, fitting};
ghost use Rattle.engine.specs.Views.{Serves, frame_of, opening, state_of};

use crate::visit::{Course, Visit};
use host::calls::Host;
use meaning::answers::{Moved, Standing};
use refusal::Refusal;
use regime::rules::Regime;
use script::accepted::Script;
use script::parts::Direction;

// How many turns a visit has.
const TURNS: u32 = 1_000_000;

// That a refusal leaves the whole visit as it was is said of each call for itself: it is about the visit before and after,
// and an invariant speaks of one alone.
impl<R: Regime, H: Host> Visit<R, H> {
    // A visit as it begins: every copy at instruction 0, every tape empty. What is promised of visits holds of every log of
    // calls from here on.
    pub fn open(script: Script, regime: R, host: H) -> Visit<R, H>
        ensures script { result.script ≡ script }
        ensures regime { result.regime ≡ regime }
        ensures host { result.host ≡ host }
        ensures frame { frame_of R.Regime.order H.Host.channels result ≡ framed (opening script (R.Regime.order regime) (H.Host.channels host)) }
        ensures state { state_of H.Host.channels result ≡ opened (opening script (R.Regime.order regime) (H.Host.channels host)) }
        ensures promises { Promises (opening script (R.Regime.order regime) (H.Host.channels host)) }
    {
        Visit {
            script,
            regime,
            host,
            course: Course::begin(),
        }
    }

    // Whether the script fits the regime and the host.
    fn fit(&self) -> Result<(), Refusal>
        ensures { result ≡ fitting (frame_of R.Regime.order H.Host.channels self.now) }
    {
        if self.script.levels != self.regime.levels() {
            return Err(Refusal::Levels);
        }
        if usize::from(self.host.count()) < self.script.channel_count {
            return Err(Refusal::Channels);
        }
        Ok(())
    }

    // The world puts a value to an in channel.
    pub fn feed(&mut self, channel: u8, value: i32) -> Result<(), Refusal>
        ensures served { Serves R.Regime.order H.Host.channels self.old (feeds channel value) self.new (fed_by result) }
        ensures refused { IfRefused result (self.new ≡ self.old) }
        ensures memory { IfAccepted result (H.Host.puts self.old.host channel value self.new.host) }
    {
        self.fit()?;
        self.script.judge(channel, Direction::In)?;
        self.host.put(channel, value)
    }

    // The world takes a value from an out channel.
    pub fn collect(&mut self, channel: u8) -> Result<i32, Refusal>
        ensures served { Serves R.Regime.order H.Host.channels self.old (collects channel) self.new (collected_by result) }
        ensures refused { IfRefused result (self.new ≡ self.old) }
        ensures memory { IfAccepted result (H.Host.takes self.old.host channel self.new.host) }
    {
        self.fit()?;
        self.script.judge(channel, Direction::Out)?;
        self.host.take(channel)
    }

    // One turn: the copy that is picked does one instruction, or nobody moves.
    pub fn turn(&mut self) -> Result<Option<Moved>, Refusal>
        ensures served { Serves R.Regime.order H.Host.channels self.old turns self.new (turned_by result) }
        ensures refused { IfRefused result (self.new ≡ self.old) }
        ensures memory { TurnMemory H.Host.puts H.Host.takes self.old.host result self.new.host }
    {
        self.fit()?;
        if self.course.turns >= TURNS {
            return Err(Refusal::Spent);
        }
        let picked = self.choose();
        Ok(self.advance(picked))
    }

    // How the copy at the level stands, and how often it moved.
    pub fn ask(&self, level: u8) -> Result<Standing, Refusal>
        ensures served { Serves R.Regime.order H.Host.channels self.now (asks level) self.now (told_by result) }
    {
        self.fit()?;
        if level >= self.script.levels {
            return Err(Refusal::Level);
        }
        Ok(Standing {
            status: self.status(level),
            steps: self.course.copies.steps(level),
        })
    }

    // The script that runs.
    pub fn script(&self) -> &Script
        ensures { result.now ≡ self.now.script }
    {
        &self.script
    }

    // The regime, to be asked.
    pub fn regime(&self) -> &R
        ensures { result.now ≡ self.now.regime }
    {
        &self.regime
    }

    // The host, to be looked at.
    pub fn host(&self) -> &H
        ensures { result.now ≡ self.now.host }
    {
        &self.host
    }

    // The visit ends, and its owner gets back what it was opened with.
    pub fn end(self) -> (Script, R, H)
        ensures script { result.0 ≡ self.script }
        ensures regime { result.1 ≡ self.regime }
        ensures host { result.2 ≡ self.host }
    {
        let Visit {
            script,
            regime,
            host,
            ..
        } = self;
        (script, regime, host)
    }
}

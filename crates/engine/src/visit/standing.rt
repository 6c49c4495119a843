// How a copy stands, and who moves next.
ghost use Rattle.std.specs.Prelude.{◌≡◌, ℕ, ◌%◌, ◌<◌, ℤ, IfSome, is_some, ◌==◌};
ghost use Rattle.copies.specs.Held.{copies_of};
ghost use Rattle.meaning.specs.Copies.{nth};
ghost use Rattle.meaning.specs.Visits.{choice, gets, has_space, is_ready, level_of, plan, read_plan, ready as ready_levels, status as status_of, write_plan};
ghost use Rattle.regime.specs.Members.{members};
ghost use Rattle.engine.specs.Views.{Fits, Port, frame_of, state_of};

use crate::visit::Visit;
use copies::rules::Source;
use host::calls::Host;
use meaning::answers::Status;
use regime::ready::ReadySet;
use regime::rules::Regime;
use script::parts::Instruction;

// What these may rely on is asked as in `moves`: no invariant, since a visit that does not fit is a visit too. Level and
// channel go side by side as there.
impl<R: Regime, H: Host> Visit<R, H> {
    // The level of a channel of the script.
    pub(crate) fn level_of(&self, channel: u8) -> u8
        requires { channel < 16 }
        ensures { result ≡ level_of (frame_of R.Regime.order H.Host.channels self.now) channel }
    {
        self.script.channels[usize::from(channel)].level
    }

    // Does the host hold a value on the channel? This and the next ask the host two questions; what they share is std's
    // `is_ok_and`.
    #[tactic(auto, using(crate::proofs::Hosted::some_held))]
    fn holds(&self, channel: u8) -> bool
        requires { Port H.Host.channels self.now channel }
        ensures { result ≡ is_some (nth ((state_of H.Host.channels self.now).lists channel) 0) }
    {
        self.host.held(channel).is_ok_and(|held| held > 0)
    }

    // Has it space for one more?
    fn has_space(&self, channel: u8) -> bool
        requires { Port H.Host.channels self.now channel }
        ensures { result ≡ has_space (frame_of R.Regime.order H.Host.channels self.now) (state_of H.Host.channels self.now) channel }
    {
        self.host.space(channel).is_ok_and(|space| space > 0)
    }

    // What an in from the channel lacks.
    fn read_status(&self, level: u8, channel: u8) -> Status
        requires { Port H.Host.channels self.now channel }
        ensures { (t : ℕ) → result ≡ status_of (read_plan (copies_of self.now.course.copies level) t channel (gets (frame_of R.Regime.order H.Host.channels self.now) (state_of H.Host.channels self.now) level (copies_of self.now.course.copies level) channel)) }
    {
        match self.source(level, channel) {
            Source::Default | Source::Tape(_) => Status::Ready,
            Source::Host if self.holds(channel) => Status::Ready,
            Source::Host | Source::Owner => Status::LacksValue { channel },
        }
    }

    // What an out to the channel lacks.
    fn write_status(&self, level: u8, channel: u8) -> Status
        requires { Port H.Host.channels self.now channel }
        ensures { (v : ℤ) → result ≡ status_of (write_plan (copies_of self.now.course.copies level) channel v (level_of (frame_of R.Regime.order H.Host.channels self.now) channel == level) (has_space (frame_of R.Regime.order H.Host.channels self.now) (state_of H.Host.channels self.now) channel)) }
    {
        if self.level_of(channel) != level || self.has_space(channel) {
            Status::Ready
        } else {
            Status::LacksSpace { channel }
        }
    }

    // How the copy at the level stands.
    pub(crate) fn status(&self, level: u8) -> Status
        requires { Fits R.Regime.order H.Host.channels self.now }
        ensures { result ≡ status_of (plan (frame_of R.Regime.order H.Host.channels self.now) (state_of H.Host.channels self.now) level) }
    {
        match self.script.instruction_at(self.course.copies.next(level)) {
            None => Status::Ended,
            Some(Instruction::Input { channel, .. }) => self.read_status(level, channel),
            Some(Instruction::Output { channel, .. }) => self.write_status(level, channel),
            Some(_) => Status::Ready,
        }
    }

    fn is_ready(&self, level: u8) -> bool
        requires { Fits R.Regime.order H.Host.channels self.now }
        ensures { result ≡ is_ready (status_of (plan (frame_of R.Regime.order H.Host.channels self.now) (state_of H.Host.channels self.now) level)) }
    {
        self.status(level) == Status::Ready
    }

    // The levels whose copies are ready; each is asked once. A loop that inserts: `collect` takes an allocator, and `filter`
    // and `fold`, which are as long, leave open what they give.
    fn ready(&self) -> ReadySet
        requires { Fits R.Regime.order H.Host.channels self.now }
        ensures { members result ≡ ready_levels (frame_of R.Regime.order H.Host.channels self.now) (state_of H.Host.channels self.now) }
    {
        let mut ready = ReadySet::none();
        // No script has more than 16 levels: said again, it spares two tests of every level.
        for level in 0..self.script.levels.min(16) {
            if self.is_ready(level) {
                ready.insert(level);
            }
        }
        ready
    }

    // The place in the round of turns. Turns that moved nobody count too, or a wait would show.
    fn place(&self) -> u8
        ensures { result ≡ self.now.course.turns % self.now.script.levels }
    {
        (self.course.turns % u32::from(self.script.levels)) as u8
    }

    // Who moves next.
    pub(crate) fn choose(&self) -> Option<u8>
        requires { Fits R.Regime.order H.Host.channels self.now }
        ensures picks { result ≡ choice (frame_of R.Regime.order H.Host.channels self.now) (state_of H.Host.channels self.now) }
        ensures inside { IfSome result (λ l. l < 16) }
    {
        self.regime.pick(self.place(), self.ready())
    }
}

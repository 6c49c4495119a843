// A visit: a script, a regime, a host, and one copy of the script for each level.
ghost use Rattle.std.specs.Prelude.{ℕ, ◌≤◌};
ghost use Rattle.copies.specs.Held.{steps_of};

use copies::table::Copies;
use copies::tapes::Tapes;
use host::calls::Host;
use regime::rules::Regime;
use script::accepted::Script;

pub mod calls;
mod moves;
mod standing;
mod steps;

// A definition over `Visit<R, H>` cannot name what the traits say of R and H, so each contract hands it order and channels.
// Contracts read a visit by `frame_of` and `state_of` and not as a model, by which a refusal would promise less: it leaves
// the host's own memory too.
#[derive(Drop)]
pub struct Visit<R: Regime, H: Host> {
    script: Script,
    regime: R,
    host: H,
    course: Course,
}

// How far a visit has come. Turns change it in place; script, regime and host are no part of it.
#[derive(Drop)]
struct Course {
    // Accepted turns so far.
    turns: u32,
    copies: Copies,
    tapes: Tapes,
    ghost unspent: { turns ≤ 1000000 },
    // No copy has made more steps than there were turns.
    ghost paced: { (l : ℕ) → steps_of copies l ≤ turns },
}

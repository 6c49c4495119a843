// What a regime is.
ghost use Rattle.std.specs.Prelude.{◌≡◌};
ghost use Rattle.regime.specs.Members.{members};
ghost use Rattle.regime.specs.Order.{Lawful, Order};

use crate::ready::ReadySet;

// A regime is an order of levels and a rule for whose turn it is. Its questions change nothing; code over any regime
// rests on its order and the laws alone.
pub trait Regime {
    // What the regime answers.
    ghost order: { Self → Order };

    // How many levels there are, 1 to 16.
    fn levels(&self) -> u8
        ensures { result ≡ (order self.now).size };

    // May what is known at level `a` be known at level `b`?
    fn flows(&self, a: u8, b: u8) -> bool
        ensures { result ≡ (order self.now).flows a b };

    // Who moves, of the levels that are ready, at that place in the round of turns.
    fn pick(&self, place: u8, ready: ReadySet) -> Option<u8>
        ensures { result ≡ (order self.now).picks place (members ready) };

    ghost lawful: { (r : Self) → Lawful (order r) };
}

// Compartments as a regime.
ghost use Rattle.std.specs.Prelude.{◌≡◌, ◌^◌};
ghost use Rattle.regime.specs.Order.{nearest};
ghost use Rattle.class.specs.Compartments.{OwnTurns, compartments as marked, within as covers};
ghost use Rattle.class.specs.Marked.{order_of};
ghost use Rattle.class.specs.Covers.{compartments_lawful};

use crate::compartments::Compartments;
use regime::ready::ReadySet;
use regime::rules::Regime;

// The number of marks for a number that is asked.
fn marks_for(k: u8) -> u8
    ensures { result ≡ nearest 0 4 k }
{
    k.min(4)
}

impl Compartments {
    // Compartments of `k` marks, or of the nearest number from 0 to 4.
    #[tactic(auto, using(crate::specs::Covers::own_turns))]
    pub fn new(k: u8) -> Compartments
        ensures order { order_of result ≡ marked (nearest 0 4 k) }
        ensures meaning { OwnTurns (2 ^ nearest 0 4 k) (order_of result) }
    {
        Compartments {
            marks: marks_for(k),
        }
    }
}

// Is every one bit of `a` one in `b`?
fn within(a: u8, b: u8) -> bool
    ensures { result ≡ covers a b }
{
    a & b == a
}

impl Regime for Compartments {
    ghost order = { order_of };

    ghost lawful = { λ r. compartments_lawful r.marks r.bounded };

    fn levels(&self) -> u8 {
        1 << self.marks
    }

    fn flows(&self, a: u8, b: u8) -> bool {
        let n = self.levels();
        a < n && b < n && within(a, b)
    }

    // A level that is not ready loses its turn: passing it on would show who waits.
    fn pick(&self, place: u8, ready: ReadySet) -> Option<u8> {
        ready.own_turn(self.levels(), place)
    }
}

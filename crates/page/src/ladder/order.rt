// The ladder as a regime.
ghost use Rattle.std.specs.Prelude.{◌≡◌};
ghost use Rattle.regime.specs.Members.{members};
ghost use Rattle.regime.specs.Order.{nearest};
ghost use Rattle.page.specs.Ladder.{PicksLowest, ladder as rungs, lowest};
ghost use Rattle.page.specs.Laddered.{order_of};
ghost use Rattle.page.specs.Rungs.{ladder_lawful};

use crate::ladder::Ladder;
use regime::ready::ReadySet;
use regime::rules::Regime;

// The number of levels for a number that is asked.
fn rungs_for(n: u8) -> u8
    ensures { result ≡ nearest 1 16 n }
{
    n.clamp(1, 16)
}

impl Ladder {
    // A ladder of `n` levels, or of the nearest number from 1 to 16.
    #[tactic(auto, using(crate::specs::Rungs::picks_lowest))]
    pub fn new(n: u8) -> Ladder
        ensures order { order_of result ≡ rungs (nearest 1 16 n) }
        ensures meaning { PicksLowest (nearest 1 16 n) (order_of result) }
    {
        Ladder {
            levels: rungs_for(n),
        }
    }
}

// The lowest member below `n`. By a loop: what `find` answers is shown by hand, so that a wrong order of the levels is
// refused in a proof file and not here.
#[tactic(auto, using(crate::proofs::Finds::first_here, crate::proofs::Finds::first_later, crate::proofs::Finds::first_past, crate::proofs::Finds::lowest_first))]
fn lowest(n: u8, ready: &ReadySet) -> Option<u8>
    ensures { result ≡ lowest n (members ready.now) }
{
    for level in 0..n {
        if ready.contains(level) {
            return Some(level);
        }
    }
    None
}

impl Regime for Ladder {
    ghost order = { order_of };

    ghost lawful = { λ r. ladder_lawful r.levels r.bounded.0 r.bounded.1 };

    fn levels(&self) -> u8 {
        self.levels
    }

    fn flows(&self, a: u8, b: u8) -> bool {
        a <= b && b < self.levels
    }

    fn pick(&self, place: u8, ready: ReadySet) -> Option<u8> {
        if place < self.levels {
            lowest(self.levels, &ready)
        } else {
            None
        }
    }
}

// Any of the three regimes: for programs that are told the kind of levels only when they run. An enum and a match in each
// call, since nothing hands out a `dyn`.
ghost use Rattle.house.specs.AnyOrder.{any_lawful, order_of};

use crate::order_map::OrderMap;
use class::compartments::Compartments;
use page::ladder::Ladder;
use regime::ready::ReadySet;
use regime::rules::Regime;

#[derive(Clone, Copy)]
pub enum AnyRegime {
    Ladder(Ladder),
    Compartments(Compartments),
    Map(OrderMap),
}

impl Regime for AnyRegime {
    ghost order = { order_of };

    ghost lawful = { any_lawful };

    fn levels(&self) -> u8 {
        match self {
            AnyRegime::Ladder(regime) => regime.levels(),
            AnyRegime::Compartments(regime) => regime.levels(),
            AnyRegime::Map(regime) => regime.levels(),
        }
    }

    fn flows(&self, a: u8, b: u8) -> bool {
        match self {
            AnyRegime::Ladder(regime) => regime.flows(a, b),
            AnyRegime::Compartments(regime) => regime.flows(a, b),
            AnyRegime::Map(regime) => regime.flows(a, b),
        }
    }

    fn pick(&self, place: u8, ready: ReadySet) -> Option<u8> {
        match self {
            AnyRegime::Ladder(regime) => regime.pick(place, ready),
            AnyRegime::Compartments(regime) => regime.pick(place, ready),
            AnyRegime::Map(regime) => regime.pick(place, ready),
        }
    }
}

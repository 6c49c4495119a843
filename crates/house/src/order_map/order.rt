// Order maps as a regime.
ghost use Rattle.std.specs.Prelude.{◌≡◌, MatchResult};
ghost use Rattle.refusal.specs.declared.Refusal.TheVariants as why;
ghost use Rattle.house.specs.Mapped.{order_of};
ghost use Rattle.house.specs.Rows.{Accepted, mapped};
ghost use Rattle.house.specs.Shown.{accepted, mapped_lawful};

use crate::order_map::OrderMap;
use crate::order_map::judge::Table;
use refusal::Refusal;
use regime::ready::ReadySet;
use regime::rules::Regime;

impl OrderMap {
    // The map of `n` levels with these rows, or 7 where they make none.
    pub fn new(n: u8, rows: [u16; 16]) -> Result<OrderMap, Refusal>
        ensures { MatchResult result (λ m. (order_of m ≡ mapped n rows) × Accepted n rows) (λ e. (e ≡ why.Order) × (Accepted n rows → ⊥)) }
    {
        if !(1..=16).contains(&n) {
            return Err(Refusal::Order);
        }
        let table = Table { levels: n, rows };
        if table.is_order() {
            Ok(OrderMap { table })
        } else {
            Err(Refusal::Order)
        }
    }
}

impl Regime for OrderMap {
    ghost order = { order_of };

    ghost lawful = { λ r. mapped_lawful r.table.levels r.table.rows (accepted r.table.levels r.table.rows r.accepted) };

    fn levels(&self) -> u8 {
        self.table.levels
    }

    fn flows(&self, a: u8, b: u8) -> bool {
        let n = self.levels();
        a < n && b < n && self.table.tells(a, b)
    }

    fn pick(&self, place: u8, ready: ReadySet) -> Option<u8> {
        ready.own_turn(self.table.levels, place)
    }
}

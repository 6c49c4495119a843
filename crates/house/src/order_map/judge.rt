// Whether a table of levels tells an order.
ghost use Rattle.std.specs.Prelude.{◌≡◌, ℕ, ◌<◌, ◌≤◌, true, Decides};
ghost use Rattle.regime.specs.Order.{Partial};
ghost use Rattle.class.specs.Compartments.{bit};
ghost use Rattle.house.specs.Rows.{Clear, Itself, OneWay, OneWayFrom, Onward, OnwardFrom, OnwardThrough, RowClear, told};

// Levels and which flows to which: bit a of row b says that level a flows to level b. A row for each level that there can
// be, since the order map that holds them is `Copy` and allocates nothing. A level is a `u8` with its bound in the
// contract: `(0..levels)` gives numbers, and a type of levels would be made and taken apart at each.
#[derive(Clone, Copy)]
pub(crate) struct Table {
    pub(crate) levels: u8,
    pub(crate) rows: [u16; 16],
    ghost few: { levels ≤ 16 },
}

// Has `row` no one bit at or beyond `from`?
#[tactic(auto, using(class::specs::Marks::blank_decides))]
fn is_blank(row: u16, from: u8) -> bool
    requires { from ≤ 16 }
    ensures { Decides result ((a : ℕ) → bit row a ≡ true → a < from) }
{
    u32::from(row) >> from == 0
}

impl Table {
    // Is bit `a` of row `b` one?
    pub(crate) fn tells(&self, a: u8, b: u8) -> bool
        requires { (a < 16) × (b < 16) }
        ensures { result ≡ told self.now.rows a b }
    {
        (self.rows[usize::from(b)] >> a) % 2 == 1
    }

    // No one in row `b` at or beyond the number of levels, and none at all where `b` is no level.
    fn is_row_clear(&self, b: u8) -> bool
        requires { b < 16 }
        ensures { Decides result (RowClear self.now.levels self.now.rows b) }
    {
        let n = self.levels;
        let from = if b < n { n } else { 0 };
        is_blank(self.rows[usize::from(b)], from)
    }

    // The same in every row.
    fn is_clear(&self) -> bool
        ensures { Decides result (Clear self.now.levels self.now.rows) }
    {
        (0..16).all(|b| self.is_row_clear(b))
    }

    // The three laws of order follow. Each is one line for each level that it speaks of, by another test: one function over
    // a test that is passed would be no shorter. Each depth is a method: the outer `all` is proved from its contract, and a
    // closure within a closure would have none. The levels stand side by side: a law speaks of one, two or three levels.
    fn flows_to_itself(&self, a: u8) -> bool
        requires { a < 16 }
        ensures { Decides result (told self.now.rows a a ≡ true) }
    {
        self.tells(a, a)
    }

    // Each level flows to itself.
    fn is_reflexive(&self) -> bool
        ensures { Decides result (Itself self.now.levels self.now.rows) }
    {
        (0..self.levels).all(|a| self.flows_to_itself(a))
    }

    fn is_one_way_between(&self, a: u8, b: u8) -> bool
        requires { (a < 16) × (b < 16) }
        ensures { Decides result (told self.now.rows a b ≡ true → told self.now.rows b a ≡ true → a ≡ b) }
    {
        a == b || !(self.tells(a, b) && self.tells(b, a))
    }

    // Does level `a` flow both ways with no other level?
    fn is_one_way_from(&self, a: u8) -> bool
        requires { a < self.now.levels }
        ensures { Decides result (OneWayFrom self.now.levels self.now.rows a) }
    {
        (0..self.levels).all(|b| self.is_one_way_between(a, b))
    }

    // No two different levels flow both ways.
    fn is_one_way(&self) -> bool
        ensures { Decides result (OneWay self.now.levels self.now.rows) }
    {
        (0..self.levels).all(|a| self.is_one_way_from(a))
    }

    fn flows_on(&self, a: u8, b: u8, c: u8) -> bool
        requires { (a < 16) × (b < 16) × (c < 16) }
        ensures { Decides result (told self.now.rows a b ≡ true → told self.now.rows b c ≡ true → told self.now.rows a c ≡ true) }
    {
        !(self.tells(a, b) && self.tells(b, c)) || self.tells(a, c)
    }

    // Does level `a` flow to all that `b` flows to, if it flows to `b`?
    fn flows_on_through(&self, a: u8, b: u8) -> bool
        requires { (a < self.now.levels) × (b < self.now.levels) }
        ensures { Decides result (OnwardThrough self.now.levels self.now.rows a b) }
    {
        (0..self.levels).all(|c| self.flows_on(a, b, c))
    }

    // The same through every level.
    fn flows_on_from(&self, a: u8) -> bool
        requires { a < self.now.levels }
        ensures { Decides result (OnwardFrom self.now.levels self.now.rows a) }
    {
        (0..self.levels).all(|b| self.flows_on_through(a, b))
    }

    // What flows on has flowed.
    fn is_transitive(&self) -> bool
        ensures { Decides result (Onward self.now.levels self.now.rows) }
    {
        (0..self.levels).all(|a| self.flows_on_from(a))
    }

    // Is flow, as the rows tell it, a partial order of the levels?
    #[tactic(auto, unfolding(crate::specs::Rows::OneWayFrom, crate::specs::Rows::OnwardFrom))]
    pub(crate) fn is_order(&self) -> bool
        ensures { Decides result (Partial self.now.levels (told self.now.rows)) }
    {
        self.is_clear() && self.is_reflexive() && self.is_one_way() && self.is_transitive()
    }
}

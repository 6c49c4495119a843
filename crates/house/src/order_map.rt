// The order map: an order of levels that is written out.
ghost use Rattle.house.specs.Rows.{Accepted};

mod judge;
pub mod order;

use crate::order_map::judge::Table;

// Every value keeps the laws of an order, with zeros at and beyond the number of levels.
#[derive(Clone, Copy)]
pub struct OrderMap {
    table: Table,
    ghost accepted: { ∥ Accepted table.levels table.rows ∥₁ },
}

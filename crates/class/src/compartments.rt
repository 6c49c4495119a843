// Compartments: a level is a set of marks, one bit each, and flows to the levels that have all of them.
ghost use Rattle.std.specs.Prelude.{◌≤◌};

pub mod order;

#[derive(Clone, Copy)]
pub struct Compartments {
    marks: u8,
    ghost bounded: { marks ≤ 4 },
}

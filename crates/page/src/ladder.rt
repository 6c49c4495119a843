// The ladder: each level flows to itself and to all above it, and the lowest ready level moves.
ghost use Rattle.std.specs.Prelude.{◌≤◌};

pub mod order;

#[derive(Clone, Copy)]
pub struct Ladder {
    levels: u8,
    ghost bounded: { (1 ≤ levels) × (levels ≤ 16) },
}

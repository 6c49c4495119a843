// Sets of levels.
ghost use Rattle.std.specs.Prelude.{◌≡◌, ℕ, false, ◌&&◌, ◌||◌, ◌==◌, nat_lt};
ghost use Rattle.regime.specs.Members.{members};
ghost use Rattle.regime.specs.Order.{own_turn};

// The levels that are ready to move, by their numbers. No number from 16 up is ever a member. The array is the set: a
// flag for each level, in fixed memory. It is filled by `insert`, since `collect` takes an allocator.
#[derive(Clone, Copy)]
pub struct ReadySet {
    flags: [bool; 16],
}

impl ReadySet {
    // Nobody is ready.
    pub fn none() -> ReadySet
        ensures { (a : ℕ) → members result a ≡ false }
    {
        ReadySet { flags: [false; 16] }
    }

    pub fn contains(&self, level: u8) -> bool
        ensures { result ≡ members self.now level }
    {
        self.flags
            .get(usize::from(level))
            .is_some_and(|is_ready| *is_ready)
    }

    // One member more; a number from 16 up changes nothing.
    pub fn insert(&mut self, level: u8)
        ensures { (a : ℕ) → members self.new a ≡ ((a == level && nat_lt level 16) || members self.old a) }
    {
        // A test and an index: after a slice's `get_mut` a proof knows its length, and no element.
        if level < 16 {
            self.flags[usize::from(level)] = true;
        }
    }

    // The level numbered as the place, of `levels`, if it is ready: a level that is not ready loses its turn.
    pub fn own_turn(&self, levels: u8, place: u8) -> Option<u8>
        ensures { result ≡ own_turn levels place (members self.now) }
    {
        (place < levels && self.contains(place)).then_some(place)
    }
}

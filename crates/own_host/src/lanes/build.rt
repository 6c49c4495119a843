// How a host gets its channels.
ghost use Rattle.std.specs.Prelude.{◌≡◌};
ghost use Rattle.own_host.specs.Added.{Told, after_add, no_channels};
ghost use Rattle.own_host.specs.Lanes.{channels_of};
ghost use Rattle.own_host.specs.declared.lanes.build.Unmade.TheVariants.{Memory};

use super::{HeapHost, Lane};
use std::alloc::{AllocError, AllocFailed, Global};

// Why a channel was not added.
#[derive(Clone, Copy, PartialEq, Eq, Debug)]
pub enum Unmade {
    // There are 16 channels already.
    Channels,
    // The capacity is not 1 to 65,535.
    Capacity,
    // There is not enough memory.
    Memory,
}

// By hand, since clauses name what `?` makes of want of memory: a derived `From` has no clause.
impl From<AllocError> for Unmade {
    ghost from_gives = { λ _ r. r ≡ Memory };

    fn from(_e: AllocError) -> Unmade {
        Unmade::Memory
    }
}

impl<T: Drop> From<AllocFailed<T>> for Unmade {
    ghost from_gives = { λ _ r. r ≡ Memory };

    fn from(_e: AllocFailed<T>) -> Unmade {
        Unmade::Memory
    }
}

impl HeapHost {
    pub fn new(heap: Global) -> HeapHost
        ensures { channels_of result ≡ no_channels }
    {
        HeapHost {
            lanes: Vec::new(heap),
        }
    }

    // One channel more, which begins with these values, even with more than the capacity allows.
    #[tactic(auto, using(crate::proofs::Laned::grows))]
    pub fn add(&mut self, heap: Global, capacity: usize, values: &[i32]) -> Result<(), Unmade>
        ensures answer { Told (channels_of self.old).count capacity result }
        ensures after { channels_of self.new ≡ after_add (channels_of self.old) capacity values.now result }
    {
        if self.lanes.len() >= 16 {
            return Err(Unmade::Channels);
        }
        if !(1..=65535).contains(&capacity) {
            return Err(Unmade::Capacity);
        }
        let lane = Lane::new(heap, capacity, values)?;
        self.lanes.push(lane)?;
        Ok(())
    }
}

// The laws of the strip, for all entries and all strips.
ghost use Rattle.strip.specs.Laws.{AddsNewest, ByExample, FairShares, MovesForward, NeverCrowded, NeverFull, StoresNext, TakesOldest};

// Every channel has the largest capacity that all can have at once.
#[tactic(auto, using(crate::proofs::Theorems::fair_shares))]
pub fn shares_are_fair()
    ensures { FairShares }
{}

// One channel's values never refuse another's put: where a channel has space an entry is unused.
#[tactic(auto, using(crate::proofs::Theorems::never_crowded, crate::proofs::Theorems::never_full))]
pub fn strip_never_overflows()
    ensures crowded { NeverCrowded }
    ensures full { NeverFull }
{}

// What a put does to the entries, and to each channel's list.
pub fn put_uses_the_next_entry()
    ensures entries { StoresNext }
    ensures lists { AddsNewest }
{}

// What a take does to the entries, and to each channel's list.
pub fn take_closes_the_gap()
    ensures entries { MovesForward }
    ensures lists { TakesOldest }
    ensures example { ByExample }
{}

// What a strip of so many entries can hold.
ghost use Rattle.std.specs.Prelude.{◌≡◌};
ghost use Rattle.strip.specs.Sizes.{strip_capacity, strip_count};

// How many channels there are, where so many are asked for.
pub(crate) fn count_of(asked: usize, given: usize) -> u8
    ensures { result ≡ strip_count asked given }
{
    given.min(asked).min(16) as u8
}

// How many values each channel can hold.
pub(crate) fn capacity_of(count: u8, given: usize) -> usize
    ensures { result ≡ strip_capacity count given }
{
    if count == 0 {
        return 0;
    }
    given.min(512) / usize::from(count)
}

// What is left of a record whose fields are read one after another.
ghost use Rattle.std.specs.Prelude.{◌≡◌, ◌^◌, ◌<◌, ◌≤◌, length, IfOk};
ghost use Rattle.format.specs.Numbers.{bit};
ghost use Rattle.format.specs.Reading.{read_field};
ghost use Rattle.format.specs.Rules.{value_of};
ghost use Rattle.record_reader.specs.Steps.{Steps};

use field::{Number, has_bit, read_field};
use format::layout::{Field, Site};
use refusal::Fault;

// The record's site and map, and the bytes that follow the fields that are read.
#[derive(Clone, Copy)]
pub(crate) struct Cursor<'a> {
    pub site: Site,
    pub map: u8,
    pub bytes: &'a [u8],
}

impl<'a> Cursor<'a> {
    // The next field, which bit `k` of the map announces.
    pub(crate) fn field<T: Number>(self, k: u32) -> Result<(Field, Self), Fault>
        ensures shrinks { IfOk result (λ x. length x.1.bytes.now ≤ length self.entry.bytes.now) }
        ensures small { IfOk result (λ x. value_of x.0 < 256 ^ T.width) }
        ensures same { IfOk result (λ x. (x.1.site ≡ self.entry.site) × (x.1.map ≡ self.entry.map)) }
        ensures is { Steps (read_field self.entry.site T.width (bit k self.entry.map) self.entry.bytes.now) result }
    {
        let (field, bytes) = read_field::<T>(self.site, has_bit(self.map, k), self.bytes)?;
        let after = Cursor {
            site: self.site,
            map: self.map,
            bytes,
        };
        Ok((field, after))
    }
}

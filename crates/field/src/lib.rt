// The fields of a record: reading one, and the rules that one can break. The fault of a field goes up from here
// through records to files.
#![tactic(auto)]

ghost use Rattle.std.specs.Prelude.{◌≡◌, ℕ, ◌^◌, ◌<◌, not, ◌&&◌, ◌||◌, map as each, ◌==◌, nat_lt};
ghost use Rattle.refusal.specs.declared.Refusal.TheVariants.{Map, Range, Zero};
ghost use Rattle.format.specs.Numbers.{bit};
ghost use Rattle.format.specs.Reading.{read_field};
ghost use Rattle.format.specs.Rules.{fault, is_there, not_zero, value_of};
ghost use Rattle.field.specs.Outcomes.{Cuts, Is, Keeps, Reads, Ruled, Shrinks};

use format::layout::{Field, Site};
use refusal::{Fault, Refusal};

// Here and below a site and a field stay two parameters: a record has one site and up to seven fields.

// A field that is there is not 0.
fn check_nonzero(site: Site, field: Field) -> Result<(), Fault>
    ensures { Ruled (not (is_there field && value_of field == 0)) (fault Zero field.byte site.part) result }
{
    if field.value == Some(0) {
        return Err(site.fault(Refusal::Zero, field.byte));
    }
    Ok(())
}

// None of the fields of a record that are there is 0.
pub fn check_zeros(site: Site, fields: &[Field]) -> Result<(), Fault>
    ensures { Keeps (each (not_zero site) fields.now) result }
{
    for field in fields {
        check_nonzero(site, *field)?;
    }
    Ok(())
}

// A field is below its bound.
pub fn check_below(site: Site, field: Field, bound: u32) -> Result<(), Fault>
    ensures { Ruled (nat_lt (value_of field) bound) (fault Range field.byte site.part) result }
{
    if field.number() >= bound {
        return Err(site.fault(Refusal::Range, field.byte));
    }
    Ok(())
}

// A field that is there is used.
pub fn check_used(site: Site, field: Field, used: bool) -> Result<(), Fault>
    ensures { Ruled (used || not (is_there field)) (fault Map site.map_at site.part) result }
{
    if field.value.is_some() && !used {
        return Err(site.fault(Refusal::Map, site.map_at));
    }
    Ok(())
}

// Is bit `k` of the map one?
#[tactic(auto, using(crate::proofs::Bits::bit_left))]
pub fn has_bit(map: u8, k: u32) -> bool
    ensures { result ≡ bit k map }
{
    map.checked_shr(k).unwrap_or(0) % 2 == 1
}

// A number that a field holds, low byte first. A body for each type: `from_le_bytes` is a method of each, of an array of
// its own size.
pub trait Number {
    // How many bytes it takes.
    ghost width: { ℕ };

    // The number at the front of `bytes` and what follows it; nothing where too few bytes are left.
    fn cut(bytes: &[u8]) -> Option<(u32, &[u8])>
        ensures { Cuts width bytes.now result };
}

impl Number for u8 {
    ghost width = { 1 };

    fn cut(bytes: &[u8]) -> Option<(u32, &[u8])> {
        let (front, after) = bytes.split_first()?;
        Some((u32::from(*front), after))
    }
}

impl Number for u16 {
    ghost width = { 2 };

    fn cut(bytes: &[u8]) -> Option<(u32, &[u8])> {
        let (front, after) = bytes.split_first_chunk()?;
        Some((u32::from(u16::from_le_bytes(*front)), after))
    }
}

impl Number for u32 {
    ghost width = { 4 };

    fn cut(bytes: &[u8]) -> Option<(u32, &[u8])> {
        let (front, after) = bytes.split_first_chunk()?;
        Some((u32::from_le_bytes(*front), after))
    }
}

// The field at the front of `rest`, which ends the file, if the map announces it.
pub fn read_field<'a, T: Number>(
    site: Site,
    announced: bool,
    rest: &'a [u8],
) -> Result<(Field, &'a [u8]), Fault>
    ensures shrinks { Shrinks rest.now result }
    ensures small { Reads result (λ f. value_of f < 256 ^ T.width) }
    ensures is { Is (read_field site T.width announced rest.now) result }
{
    if !announced {
        let absent = Field {
            byte: site.map_at,
            value: None,
        };
        return Ok((absent, rest));
    }
    let (number, after) = T::cut(rest).ok_or(site.fault(Refusal::Short, site.length))?;
    let field = Field {
        byte: site.length.saturating_sub(rest.len()),
        value: Some(number),
    };
    Ok((field, after))
}

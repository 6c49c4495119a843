// Channel records.
ghost use Rattle.std.specs.Prelude.{◌≡◌, ◌<◌, ◌≤◌, [], ◌∷◌, ◌++◌, map as each, IfOk, MatchOption};
ghost use Rattle.format.specs.Encoding.{channel_widths};
ghost use Rattle.format.specs.Reading.{channel_of, direction_of, read_record};
ghost use Rattle.format.specs.Rules.{channel_rules, not_zero, value_of};
ghost use Rattle.field.specs.Outcomes.{Is, Keeps, Shrinks};

use crate::cursor::Cursor;
use field::{check_below, check_zeros};
use format::layout::{Field, Site};
use refusal::{Fault, Refusal};
use script::parts::{Channel, Direction};

// The direction that has that number in a file: an option and no `TryFrom`, since the caller names the fault.
fn from_number(number: u32) -> Option<Direction>
    ensures { MatchOption result (2 ≤ number) (λ d. (number < 2) × (d ≡ direction_of number)) }
{
    match number {
        0 => Some(Direction::In),
        1 => Some(Direction::Out),
        _ => None,
    }
}

// The direction of a channel record that keeps its rules, in their order: zeros first, then ranges.
fn check_channel(site: Site, levels: u8, code: Field, level: Field) -> Result<Direction, Fault>
    ensures is { IfOk result (λ d. d ≡ direction_of (value_of code)) }
    ensures keeps { Keeps (each (not_zero site) (code ∷ level ∷ []) ++ channel_rules levels site (code ∷ level ∷ [])) result }
{
    check_zeros(site, &[code, level])?;
    let direction = from_number(code.number()).ok_or(site.fault(Refusal::Range, code.byte))?;
    check_below(site, level, u32::from(levels))?;
    Ok(direction)
}

// The channel record at the front of `bytes`, in a script with that many levels. Its two guards stand in reading an
// instruction too: what a helper would promise of them is longer than they are.
pub fn read_channel<'a>(
    site: Site,
    levels: u8,
    bytes: &'a [u8],
) -> Result<(Channel, &'a [u8]), Fault>
    ensures shrinks { Shrinks bytes.now result }
    ensures is { Is (read_record channel_widths (channel_rules levels) channel_of site bytes.now) result }
{
    let (map, bytes) = bytes
        .split_first()
        .ok_or(site.fault(Refusal::Short, site.length))?;
    if *map >= 4 {
        return Err(site.fault(Refusal::Map, site.map_at));
    }
    let rest = Cursor {
        site,
        map: *map,
        bytes,
    };
    let (code, rest) = rest.field::<u8>(0)?;
    let (level, rest) = rest.field::<u8>(1)?;
    let direction = check_channel(site, levels, code, level)?;
    Ok((
        Channel {
            direction,
            level: level.number() as u8,
        },
        rest.bytes,
    ))
}

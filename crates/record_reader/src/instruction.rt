// Instruction records.
ghost use Rattle.std.specs.Prelude.{◌≡◌, ◌++◌, map as each, IfOk};
ghost use Rattle.format.specs.Encoding.{instruction_widths};
ghost use Rattle.format.specs.Reading.{instruction_of, read_fields, read_record};
ghost use Rattle.format.specs.Rules.{instruction_rules, kind_rules, not_zero, range_rules, suits, value_of};
ghost use Rattle.field.specs.Outcomes.{Is, Keeps, Shrinks};
ghost use Rattle.record_reader.specs.Kinds.{kind_number};
ghost use Rattle.record_reader.specs.Listed.{Lists, listed};

use crate::cursor::Cursor;
use crate::kind::Kind;
use crate::record::{KnownRecord, RecordFields};
use field::{check_below, check_used, check_zeros};
use format::layout::{Field, Site};
use refusal::{Fault, Refusal};
use script::build::is_directed;
use script::parts::{Channel, Direction, Instruction};

impl RecordFields {
    // Lowest map bit first.
    fn listed(self) -> [Field; 7]
        ensures { result ≡ listed self }
    {
        [
            self.kind,
            self.target,
            self.first,
            self.second,
            self.number,
            self.place,
            self.channel,
        ]
    }
}

// All fields that the map announces, one after another. They have names and widths of their own, so this is no loop.
fn read_fields<'a>(rest: Cursor<'a>) -> Result<(RecordFields, &'a [u8]), Fault>
    ensures shrinks { Shrinks rest.entry.bytes.now result }
    ensures is { Lists (read_fields rest.entry.site instruction_widths rest.entry.map rest.entry.bytes.now) result }
{
    let (kind, rest) = rest.field::<u8>(0)?;
    let (target, rest) = rest.field::<u8>(1)?;
    let (first, rest) = rest.field::<u8>(2)?;
    let (second, rest) = rest.field::<u8>(3)?;
    let (number, rest) = rest.field::<u32>(4)?;
    let (place, rest) = rest.field::<u16>(5)?;
    let (channel, rest) = rest.field::<u8>(6)?;
    Ok((
        RecordFields {
            kind,
            target,
            first,
            second,
            number,
            place,
            channel,
        },
        rest.bytes,
    ))
}

// A known kind, and no field that it lacks.
fn check_kind(site: Site, f: RecordFields) -> Result<Kind, Fault>
    ensures known { IfOk result (λ k. kind_number k ≡ value_of f.kind) }
    ensures keeps { Keeps (kind_rules site (listed f)) result }
{
    let kind = Kind::from_number(f.kind.number()).ok_or(site.fault(Refusal::Range, f.kind.byte))?;
    check_used(site, f.target, kind.uses_target())?;
    check_used(site, f.first, kind.uses_first())?;
    check_used(site, f.second, kind.uses_second())?;
    check_used(site, f.number, kind.uses_number())?;
    check_used(site, f.place, kind.uses_place())?;
    check_used(site, f.channel, kind.uses_channel())?;
    Ok(kind)
}

// Does the kind go with the channel that it names?
fn is_suited(channels: &[Channel], kind: Kind, k: usize) -> bool
    ensures { result ≡ suits channels.now (kind_number kind) k }
{
    match kind {
        Kind::Input => is_directed(channels, k, Direction::In),
        Kind::Output => is_directed(channels, k, Direction::Out),
        _ => true,
    }
}

impl KnownRecord {
    // The instruction that the fields make.
    fn instruction(self) -> Instruction
        ensures { result ≡ instruction_of (listed self.fields) }
    {
        let f = self.fields;
        let target = f.target.number() as u8;
        let first = f.first.number() as u8;
        let channel = f.channel.number() as u8;
        match self.kind {
            Kind::Skip => Instruction::Skip,
            Kind::Set => Instruction::Set {
                target,
                number: f.number.number().cast_signed(),
            },
            Kind::Compute(operation) => Instruction::Compute {
                operation,
                target,
                first,
                second: f.second.number() as u8,
            },
            Kind::Jump => Instruction::Jump {
                first,
                place: f.place.number() as u16,
            },
            Kind::Input => Instruction::Input { target, channel },
            Kind::Output => Instruction::Output { first, channel },
            Kind::Stop => Instruction::Stop,
        }
    }
}

// Reads instruction records of a script with these channels and so many instructions.
#[derive(Clone, Copy)]
pub struct InstructionReader<'c> {
    pub channels: &'c [Channel],
    pub count: u16,
}

impl<'c> InstructionReader<'c> {
    // The other ranges, in their order; the record of a known kind that keeps them. Kind and fields come as two, since that
    // its cells are in range is a fact of the record.
    fn check_ranges(self, site: Site, kind: Kind, f: RecordFields) -> Result<KnownRecord, Fault>
        requires { kind_number kind ≡ value_of f.kind }
        ensures same { IfOk result (λ r. r.fields ≡ f) }
        ensures keeps { Keeps (range_rules self.entry.channels.now self.entry.count site (listed f)) result }
    {
        check_below(site, f.target, 16)?;
        check_below(site, f.first, 16)?;
        check_below(site, f.second, 16)?;
        check_below(site, f.place, u32::from(self.count) + 1)?;
        if !is_suited(self.channels, kind, f.channel.number() as usize) {
            return Err(site.fault(Refusal::Range, f.channel.byte));
        }
        Ok(KnownRecord { kind, fields: f })
    }

    // The rules of an instruction record, in their order: zeros first, then the kind, then the other ranges. Its answers are
    // by hand: the search does not see that one list of rules is the three lists in turn.
    fn check_instruction(self, site: Site, f: RecordFields) -> Result<KnownRecord, Fault>
        ensures same { IfOk result (λ r. r.fields ≡ f) }
        ensures keeps { Keeps (each (not_zero site) (listed f) ++ instruction_rules self.entry.channels.now self.entry.count site (listed f)) result }
    {
        check_zeros(site, &f.listed())?;
        let kind = check_kind(site, f)?;
        self.check_ranges(site, kind, f)
    }

    // The instruction record of that site, at the front of `bytes`. Its two guards stand in reading a channel too: what a
    // helper would promise of them is longer than they are.
    pub fn read_at<'a>(self, site: Site, bytes: &'a [u8]) -> Result<(Instruction, &'a [u8]), Fault>
        ensures shrinks { Shrinks bytes.now result }
        ensures is { Is (read_record instruction_widths (instruction_rules self.entry.channels.now self.entry.count) instruction_of site bytes.now) result }
    {
        let (map, bytes) = bytes
            .split_first()
            .ok_or(site.fault(Refusal::Short, site.length))?;
        if *map >= 128 {
            return Err(site.fault(Refusal::Map, site.map_at));
        }
        let rest = Cursor {
            site,
            map: *map,
            bytes,
        };
        let (fields, rest) = read_fields(rest)?;
        let record = self.check_instruction(site, fields)?;
        Ok((record.instruction(), rest))
    }
}

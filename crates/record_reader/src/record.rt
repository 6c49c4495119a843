// An instruction record, between its file and its instruction.
ghost use Rattle.std.specs.Prelude.{◌≡◌, ◌<◌};
ghost use Rattle.format.specs.Rules.{value_of};
ghost use Rattle.record_reader.specs.Kinds.{kind_number};

use crate::kind::Kind;
use format::layout::Field;

// The fields of an instruction record as they stand in the file. The site is not one of them: it is known before they are
// read, and for a channel's fields too.
#[derive(Clone, Copy)]
pub(crate) struct RecordFields {
    pub kind: Field,
    pub target: Field,
    pub first: Field,
    pub second: Field,
    pub number: Field,
    pub place: Field,
    pub channel: Field,
    ghost small: { (value_of channel < 256) × (value_of place < 65536) },
}

// An instruction record with a known kind, and cells that a copy has.
#[derive(Clone, Copy)]
pub(crate) struct KnownRecord {
    pub kind: Kind,
    pub fields: RecordFields,
    ghost known: { kind_number kind ≡ value_of fields.kind },
    ghost bounds: { (value_of fields.target < 16) × (value_of fields.first < 16) × (value_of fields.second < 16) },
}

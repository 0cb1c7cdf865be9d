// A record, and how it is read.
ghost use Rattle.std.specs.Prelude.{◌≡◌};
ghost use Rattle.refusals.specs.Conditions.{Checked};
ghost use Rattle.records.specs.Readers.{HandsOn, TakesFirst};
ghost use Rattle.records.specs.Records.{OwnBytesDecide, body_faults, body_in, body_length, entry_kind, fields_in, fields_length, record_faults, record_in, record_length, record_of};

use crate::fault::{FieldFault, RecordFault};
use crate::field::{Field, FieldName};
use crate::kind::Kind;
use ledger::terms::LetterTerms;

// What a record asks for.
#[derive(Clone, Copy, Debug, PartialEq, Eq)]
pub enum Entry {
    Opening { day: u16 },
    Lodge(LetterTerms),
}

#[derive(Clone, Copy, Debug, PartialEq, Eq)]
pub struct Record {
    // As it comes: an unknown party is refused by the posting.
    pub party: u8,
    pub entry: Entry,
}

impl Entry {
    pub fn kind(self) -> Kind
        ensures { result ≡ entry_kind self }
    {
        match self {
            Entry::Opening { .. } => Kind::Opening,
            Entry::Lodge(_) => Kind::Lodge,
        }
    }
}

// The record that a part of a batch starts with, and the part behind it.
pub fn read_record(part: &[u8]) -> Result<(Record, &[u8]), RecordFault>
    ensures alone { OwnBytesDecide part.now }
    ensures reads { Checked (record_faults part.now) result (HandsOn (record_length part.now) (record_in part.now) part.now) }
{
    match part {
        [high, low, rest @ ..] => read_body(u16::from_be_bytes([*high, *low]), rest),
        _ => Err(RecordFault::Cut),
    }
}

// The rest of a record behind its map.
fn read_body(map: u16, part: &[u8]) -> Result<(Record, &[u8]), RecordFault>
    ensures { Checked (body_faults map part.now) result (HandsOn (body_length map) (body_in map part.now) part.now) }
{
    if !FieldName::Kind.stands_in(map) {
        return Err(RecordFault::UnknownKind);
    }
    let (letter, part) = u8::take(part)?;
    let kind = Kind::try_from(char::from(letter))?;
    if map != kind.map() {
        return Err(RecordFault::WrongMap);
    }
    let (fields, part) = read_fields(map, part)?;
    Ok((fields.record(kind), part))
}

// What the fields behind the kind hold, 0 where the record does not have one. The map is its kind's by then, so that no such
// field is looked at.
#[derive(Clone, Copy, Debug, PartialEq, Eq)]
pub struct Fields {
    pub party: u8,
    pub number: u16,
    pub code: u8,
    pub sum: u32,
    pub day: u16,
    pub last_day: u16,
    pub month: u8,
}

impl Fields {
    // The record of a kind that has these fields.
    fn record(self, kind: Kind) -> Record
        ensures { result ≡ record_of kind self }
    {
        let entry = match kind {
            Kind::Opening => Entry::Opening { day: self.day },
            Kind::Lodge => Entry::Lodge(LetterTerms {
                number: self.number,
                kind: self.code,
                sum: self.sum,
                first_day: self.day,
                last_day: self.last_day,
                target_month: self.month,
            }),
        };
        Record {
            party: self.party,
            entry,
        }
    }
}

// The fields behind the kind whose bit stands, lowest bit first.
#[tactic(auto, unfolding(crate::specs::Records::fields_length))]
fn read_fields(map: u16, part: &[u8]) -> Result<(Fields, &[u8]), FieldFault>
    ensures { TakesFirst (fields_length map) (fields_in map part.now) part.now result }
{
    let (party, part) = FieldName::Party.take(map, part)?;
    let (number, part) = FieldName::Number.take(map, part)?;
    let (code, part) = FieldName::Code.take(map, part)?;
    let (sum, part) = FieldName::Sum.take(map, part)?;
    let (day, part) = FieldName::Day.take(map, part)?;
    let (last_day, part) = FieldName::LastDay.take(map, part)?;
    let (month, part) = FieldName::Month.take(map, part)?;
    let fields = Fields {
        party,
        number,
        code,
        sum,
        day,
        last_day,
        month,
    };
    Ok((fields, part))
}

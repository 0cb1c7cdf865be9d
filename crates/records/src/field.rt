// The fields of a record. Each is read from the part of the batch that starts with it, and hands on what follows it.
ghost use Rattle.std.specs.Prelude.{◌≡◌, ℕ, List, take, if◌then◌else◌};
ghost use Rattle.records.specs.Fields.{big_endian, stands};
ghost use Rattle.records.specs.Readers.{TakesFirst};

use crate::fault::FieldFault;

// A figure that is written as some bytes, high byte first.
pub trait Field: Sized {
    // How many bytes it has.
    ghost width: { ℕ };

    // What the first of some bytes read as.
    ghost reads: { List ℕ → Self };

    // What stands for it where a record does not have it.
    ghost ABSENT: { Self };

    const ABSENT: Self;

    fn take(part: &[u8]) -> Result<(Self, &[u8]), FieldFault>
        ensures { TakesFirst width (reads part.now) part.now result };
}

impl Field for u8 {
    ghost width = { 1 };

    ghost reads = { big_endian 1 };

    ghost ABSENT = { 0 };

    const ABSENT: u8 = 0;

    fn take(part: &[u8]) -> Result<(u8, &[u8]), FieldFault> {
        let (bytes, rest) = take_bytes(part)?;
        Ok((u8::from_be_bytes(bytes), rest))
    }
}

impl Field for u16 {
    ghost width = { 2 };

    ghost reads = { big_endian 2 };

    ghost ABSENT = { 0 };

    const ABSENT: u16 = 0;

    fn take(part: &[u8]) -> Result<(u16, &[u8]), FieldFault> {
        let (bytes, rest) = take_bytes(part)?;
        Ok((u16::from_be_bytes(bytes), rest))
    }
}

impl Field for u32 {
    ghost width = { 4 };

    ghost reads = { big_endian 4 };

    ghost ABSENT = { 0 };

    const ABSENT: u32 = 0;

    fn take(part: &[u8]) -> Result<(u32, &[u8]), FieldFault> {
        let (bytes, rest) = take_bytes(part)?;
        Ok((u32::from_be_bytes(bytes), rest))
    }
}

// So many of a part's first bytes, and what follows them.
fn take_bytes<const N: usize>(part: &[u8]) -> Result<([u8; N], &[u8]), FieldFault>
    ensures { TakesFirst N (take N part.now) part.now result }
{
    let (bytes, rest) = part.split_first_chunk::<N>().ok_or(FieldFault::Cut)?;
    Ok((*bytes, rest))
}

// The fields that a record can have. A field's bit in the map is its place in this list.
#[derive(Clone, Copy, Debug, PartialEq, Eq)]
pub enum FieldName {
    Kind,
    Party,
    Number,
    Code,
    Sum,
    Day,
    LastDay,
    Month,
}

impl FieldName {
    // Whether the field's bit stands in a map.
    pub fn stands_in(self, map: u16) -> bool
        ensures { result ≡ stands map self }
    {
        map >> self as u32 & 1 == 1
    }

    // The field, if its bit stands in the map.
    pub fn take<F: Field>(self, map: u16, part: &[u8]) -> Result<(F, &[u8]), FieldFault>
        ensures { TakesFirst (if stands map self then F.width else 0) (if stands map self then F.reads part.now else F.ABSENT) part.now result }
    {
        if self.stands_in(map) {
            F::take(part)
        } else {
            Ok((F::ABSENT, part))
        }
    }
}

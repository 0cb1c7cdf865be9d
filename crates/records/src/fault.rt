// What can be wrong with a field and with a record. A field's fault is turned into its record's.
ghost use Rattle.std.specs.Prelude.{◌≡◌, Some, codes, decimal};
ghost use Rattle.records.specs.Faults.{fault_number};
ghost use Rattle.records.specs.declared.fault.RecordFault.TheVariants.{Cut};

use std::error::Error;
use std::fmt;

#[derive(Clone, Copy, Debug, PartialEq, Eq)]
pub enum FieldFault {
    // The bytes end before the field does.
    Cut,
}

#[derive(Clone, Copy, Debug, PartialEq, Eq)]
pub enum RecordFault {
    // The bytes end before the record does.
    Cut = 1,
    // The map has no kind, or the kind is no known letter.
    UnknownKind = 2,
    // The map is not that of the kind.
    WrongMap = 3,
    // The first record is not an opening that is accepted, or a later one is an opening.
    OutOfTurn = 4,
    // The answer list has no place left.
    ListFull = 5,
}

impl RecordFault {
    pub fn number(self) -> u8
        ensures { result ≡ fault_number self }
    {
        self as u8
    }
}

impl From<FieldFault> for RecordFault {
    ghost from_gives = { λ _ fault. fault ≡ Cut };

    fn from(_fault: FieldFault) -> RecordFault {
        RecordFault::Cut
    }
}

impl fmt::Display for FieldFault {
    ghost output = { λ _. Some (codes "the bytes end before the field does") };

    fn fmt<W: fmt::Write>(&self, f: &mut fmt::Formatter<W>) -> fmt::Result {
        write!(f, "the bytes end before the field does")
    }
}

impl Error for FieldFault {}

// A fault of a record is written as its number.
impl fmt::Display for RecordFault {
    ghost output = { λ fault. Some (decimal (fault_number fault)) };

    fn fmt<W: fmt::Write>(&self, f: &mut fmt::Formatter<W>) -> fmt::Result {
        let number = self.number();
        write!(f, "{number}")
    }
}

impl Error for RecordFault {}

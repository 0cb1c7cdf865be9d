// What can be wrong with a batch. A record's fault is turned into it whole, with the record's number and offset.
ghost use Rattle.std.specs.Prelude.{◌≡◌, Some};
ghost use Rattle.batch.specs.Lines.{fault_figures, fault_line};
ghost use Rattle.batch.specs.declared.fault.BatchFault.TheVariants.{AtRecord};

use records::fault::RecordFault;
use std::error::Error;
use std::fmt;

// Where a record stands in its batch: its number, from 1, and the offset of its first byte.
#[derive(Clone, Copy, Debug, PartialEq, Eq)]
pub struct Position {
    pub number: usize,
    pub offset: usize,
}

#[derive(Clone, Copy, Debug, PartialEq, Eq)]
pub struct FaultAt {
    pub position: Position,
    pub fault: RecordFault,
}

#[derive(Clone, Copy, Debug, PartialEq, Eq)]
pub enum BatchFault {
    AtRecord(FaultAt),
    // The batch has more bytes than a batch may have.
    TooLong,
}

impl From<FaultAt> for BatchFault {
    ghost from_gives = { λ at fault. fault ≡ AtRecord at };

    fn from(at: FaultAt) -> BatchFault {
        BatchFault::AtRecord(at)
    }
}

impl BatchFault {
    pub fn number(self) -> u8
        ensures { result ≡ (fault_figures self).1 }
    {
        match self {
            BatchFault::AtRecord(found) => found.fault.number(),
            BatchFault::TooLong => 6,
        }
    }

    // The record's number, the fault's number and the offset, as the fault's line shows them.
    pub fn figures(self) -> (usize, u8, usize)
        ensures { result ≡ fault_figures self }
    {
        let number = self.number();
        match self {
            BatchFault::AtRecord(found) => (found.position.number, number, found.position.offset),
            BatchFault::TooLong => (0, number, 0),
        }
    }
}

impl fmt::Display for BatchFault {
    ghost output = { λ fault. Some (fault_line fault) };

    fn fmt<W: fmt::Write>(&self, f: &mut fmt::Formatter<W>) -> fmt::Result {
        let (record, fault, offset) = self.figures();
        write!(f, "{record} ! {fault} {offset}")
    }
}

impl Error for BatchFault {}

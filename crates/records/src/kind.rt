// The kinds of records.
ghost use Rattle.std.specs.Prelude.{◌≡◌, Some};
ghost use Rattle.std.proofs.Math.Utf8.{encode};
ghost use Rattle.std.specs.Option.{ok_or};
ghost use Rattle.records.specs.Kinds.{kind_letter, kind_map, kind_of};
ghost use Rattle.records.specs.declared.fault.RecordFault.TheVariants.{UnknownKind};

use crate::fault::RecordFault;
use std::fmt;

#[derive(Clone, Copy, Debug, PartialEq, Eq)]
pub enum Kind {
    Opening,
    Lodge,
}

impl Kind {
    pub fn letter(self) -> char
        ensures { result ≡ kind_letter self }
    {
        match self {
            Kind::Opening => 'N',
            Kind::Lodge => 'L',
        }
    }

    // The map that a record of this kind has.
    pub fn map(self) -> u16
        ensures { result ≡ kind_map self }
    {
        match self {
            Kind::Opening => 0x0023,
            Kind::Lodge => 0x00ff,
        }
    }
}

// The kind that has a letter.
impl TryFrom<char> for Kind {
    type Error = RecordFault;

    ghost try_from_gives = { λ letter r. r ≡ ok_or (kind_of letter) UnknownKind };

    fn try_from(letter: char) -> Result<Kind, RecordFault> {
        match letter {
            'N' => Ok(Kind::Opening),
            'L' => Ok(Kind::Lodge),
            _ => Err(RecordFault::UnknownKind),
        }
    }
}

// A kind is written as its letter.
impl fmt::Display for Kind {
    ghost output = { λ kind. Some (encode (kind_letter kind)) };

    fn fmt<W: fmt::Write>(&self, f: &mut fmt::Formatter<W>) -> fmt::Result {
        let letter = self.letter();
        write!(f, "{letter}")
    }
}

// Why something is refused. A reason has the same number wherever it is given.
#![tactic(auto)]

pub mod ranges;

ghost use Rattle.std.specs.Prelude.{◌≡◌, Some, decimal};
ghost use Rattle.refusals.specs.Refusals.{refusal_number};

use std::error::Error;
use std::fmt;

#[derive(Clone, Copy, Debug, PartialEq, Eq)]
pub enum Refusal {
    UnknownParty = 1,
    OtherPartysKind = 2,
    OutOfRange = 3,
    DayNotLater = 4,
    NoPlace = 5,
    NumberTaken = 6,
    NumberUnknown = 7,
    DaysDoNotFit = 8,
    OriginalOut = 9,
    NothingHeld = 10,
    TotalTooLarge = 11,
    ExposureTooHigh = 12,
    NotCovered = 13,
    BelowMinimum = 14,
    NothingNeeded = 15,
    NoUsableLetter = 16,
    OriginalNotOut = 17,
    MoreThanAsked = 18,
    MoreThanOpen = 19,
    PurseEmpty = 20,
    MonthOutsideBook = 21,
    ClaimOwed = 22,
    FormalBillStands = 23,
}

impl Refusal {
    pub fn number(self) -> u8
        ensures { result ≡ refusal_number self }
    {
        self as u8
    }
}

// A refusal is written as its number.
impl fmt::Display for Refusal {
    ghost output = { λ refusal. Some (decimal (refusal_number refusal)) };

    fn fmt<W: fmt::Write>(&self, f: &mut fmt::Formatter<W>) -> fmt::Result {
        let number = self.number();
        write!(f, "{number}")
    }
}

impl Error for Refusal {}

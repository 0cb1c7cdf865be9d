// A row of the table of letters. Rows are plain figures: what always holds of them is stated where the table stands.
ghost use Rattle.std.specs.Prelude.{◌≡◌, if◌then◌else◌};
ghost use Rattle.letters.specs.Choosing.{facts, usable};
ghost use Rattle.letters.specs.Letters.{booked, followed_by, includes, original_in, original_out};

use draw_order::{LetterFacts, LetterKind};

#[derive(Clone, Copy, Debug, PartialEq, Eq)]
pub enum Standing {
    // The row has no letter.
    Free,
    // The original is in the strongroom.
    In,
    // The original is with the issuer, who was asked for this sum.
    Out { demanded: u32 },
    // The letter has ended. It stays in the book.
    Ended,
}

#[derive(Clone, Copy, Debug, PartialEq, Eq)]
pub struct Letter {
    pub number: u16,
    pub kind: LetterKind,
    pub first_day: u16,
    pub last_day: u16,
    pub lodged: u32,
    pub drawn: u32,
    pub returned: u32,
    pub lapsed: u32,
    pub held: u32,
    pub standing: Standing,
}

impl Letter {
    // A row with no letter.
    pub const NONE: Letter = Letter {
        number: 0,
        kind: LetterKind::BankSingle,
        first_day: 0,
        last_day: 0,
        lodged: 0,
        drawn: 0,
        returned: 0,
        lapsed: 0,
        held: 0,
        standing: Standing::Free,
    };

    pub fn is_booked(&self) -> bool
        ensures { result ≡ booked self.now }
    {
        !matches!(self.standing, Standing::Free)
    }

    // Whether the letter's days include a day.
    pub fn includes(&self, day: u16) -> bool
        ensures { result ≡ includes day self.now }
    {
        self.first_day <= day && day <= self.last_day
    }

    // What the letter holds if its days include a day, and else nothing.
    pub(crate) fn held_on(&self, day: u16) -> u32
        ensures { result ≡ (if includes day self.now then self.now.held else 0) }
    {
        if self.includes(day) { self.held } else { 0 }
    }

    // Whether a letter that starts on this day may follow the row's letter.
    pub(crate) fn can_precede(&self, first_day: u16) -> bool
        ensures { result ≡ followed_by first_day self.now }
    {
        self.is_booked() && u32::from(first_day) <= u32::from(self.last_day) + 1
    }

    // Whether the letter can be claimed on.
    pub fn is_usable(&self, day: u16) -> bool
        ensures { result ≡ usable day self.now }
    {
        self.is_in() && self.held > 0 && self.includes(day)
    }

    // Whether the original is in the strongroom.
    pub fn is_in(&self) -> bool
        ensures { result ≡ original_in self.now }
    {
        matches!(self.standing, Standing::In)
    }

    // Whether the original is with the issuer.
    pub fn is_out(&self) -> bool
        ensures { result ≡ original_out self.now }
    {
        matches!(self.standing, Standing::Out { .. })
    }
}

// What an order knows of a letter.
impl From<&Letter> for LetterFacts {
    ghost from_gives = { λ row known. known ≡ facts row.now };

    fn from(row: &Letter) -> LetterFacts {
        LetterFacts {
            number: row.number,
            kind: row.kind,
            first_day: row.first_day,
            last_day: row.last_day,
            held: row.held,
        }
    }
}

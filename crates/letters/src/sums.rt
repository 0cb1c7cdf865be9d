// The sums of one letter. Their type carries the equation that they keep: what was lodged was drawn, given back, or has
// lapsed, or is held. They are made from a row, changed by value and written back with the whole row.
ghost use Rattle.std.specs.Prelude.{◌≡◌, ◌+◌};

mod rows;

pub use rows::Unbalanced;

#[derive(Clone, Copy, Debug, PartialEq, Eq)]
pub struct LetterSums {
    lodged: u32,
    drawn: u32,
    returned: u32,
    lapsed: u32,
    held: u32,
    ghost equation: { lodged ≡ drawn + returned + lapsed + held },
}

impl LetterSums {
    // A letter as it is lodged: all of it is held.
    pub fn lodge(sum: u32) -> LetterSums
        ensures { (result.lodged ≡ sum) × (result.held ≡ sum) }
    {
        LetterSums {
            lodged: sum,
            drawn: 0,
            returned: 0,
            lapsed: 0,
            held: sum,
        }
    }

    // What is held is given back.
    pub fn give_back(self) -> LetterSums
        ensures { (result.lodged ≡ self.lodged) × (result.drawn ≡ self.drawn) × (result.returned ≡ self.returned + self.held) × (result.lapsed ≡ self.lapsed) × (result.held ≡ 0) }
    {
        LetterSums {
            lodged: self.lodged,
            drawn: self.drawn,
            returned: self.returned + self.held,
            lapsed: self.lapsed,
            held: 0,
        }
    }

    // What is held lapses.
    pub fn lapse(self) -> LetterSums
        ensures { (result.lodged ≡ self.lodged) × (result.drawn ≡ self.drawn) × (result.returned ≡ self.returned) × (result.lapsed ≡ self.lapsed + self.held) × (result.held ≡ 0) }
    {
        LetterSums {
            lodged: self.lodged,
            drawn: self.drawn,
            returned: self.returned,
            lapsed: self.lapsed + self.held,
            held: 0,
        }
    }

    pub fn lodged(self) -> u32
        ensures { result ≡ self.lodged }
    {
        self.lodged
    }

    pub fn drawn(self) -> u32
        ensures { result ≡ self.drawn }
    {
        self.drawn
    }

    pub fn returned(self) -> u32
        ensures { result ≡ self.returned }
    {
        self.returned
    }

    pub fn lapsed(self) -> u32
        ensures { result ≡ self.lapsed }
    {
        self.lapsed
    }

    pub fn held(self) -> u32
        ensures { result ≡ self.held }
    {
        self.held
    }
}

// The colour of a book.
ghost use Rattle.std.specs.Prelude.{◌≡◌, Some};
ghost use Rattle.std.proofs.Math.Utf8.{encode};
ghost use Rattle.ledger.specs.Colours.{colour_letter, colour_of};

use std::fmt;

#[derive(Clone, Copy, Debug, PartialEq, Eq)]
pub enum Colour {
    Red,
    Orange,
    Yellow,
    Green,
}

impl Colour {
    // How far the exposure has come towards the limit. 128 bits hold every multiple that is compared.
    pub fn of(limit: i64, exposure: u64) -> Colour
        ensures { result ≡ colour_of limit exposure }
    {
        let limit = i128::from(limit);
        let exposure = i128::from(exposure);
        if exposure >= limit {
            Colour::Red
        } else if 100 * exposure >= 80 * limit {
            Colour::Orange
        } else if 100 * exposure >= 60 * limit {
            Colour::Yellow
        } else {
            Colour::Green
        }
    }

    pub fn letter(self) -> char
        ensures { result ≡ colour_letter self }
    {
        match self {
            Colour::Red => 'R',
            Colour::Orange => 'O',
            Colour::Yellow => 'Y',
            Colour::Green => 'G',
        }
    }
}

// A colour is written as its letter.
impl fmt::Display for Colour {
    ghost output = { λ colour. Some (encode (colour_letter colour)) };

    fn fmt<W: fmt::Write>(&self, f: &mut fmt::Formatter<W>) -> fmt::Result {
        let letter = self.letter();
        write!(f, "{letter}")
    }
}

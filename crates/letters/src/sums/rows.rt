// The way from a row to its sums, and back.
ghost use Rattle.std.specs.Prelude.{◌≡◌};
ghost use Rattle.letters.specs.Sums.{IfBalanced, with_sums};

use crate::letter::Letter;
use crate::sums::LetterSums;

// A row's sums do not keep the equation.
#[derive(Clone, Copy, Debug, PartialEq, Eq)]
pub struct Unbalanced;

// The sums of a row, if they keep the equation. Written back they give the row again.
impl TryFrom<&Letter> for LetterSums {
    type Error = Unbalanced;

    ghost try_from_gives = { λ row r. IfBalanced row.now r (λ sums. with_sums row.now sums ≡ row.now) };

    fn try_from(row: &Letter) -> Result<LetterSums, Unbalanced> {
        let gone = u64::from(row.drawn) + u64::from(row.returned) + u64::from(row.lapsed);
        if gone + u64::from(row.held) != u64::from(row.lodged) {
            return Err(Unbalanced);
        }
        Ok(LetterSums {
            lodged: row.lodged,
            drawn: row.drawn,
            returned: row.returned,
            lapsed: row.lapsed,
            held: row.held,
        })
    }
}

impl LetterSums {
    // The row with these sums in the place of its own.
    pub fn written_to(self, row: Letter) -> Letter
        ensures { result ≡ with_sums row self }
    {
        Letter {
            lodged: self.lodged,
            drawn: self.drawn,
            returned: self.returned,
            lapsed: self.lapsed,
            held: self.held,
            ..row
        }
    }
}

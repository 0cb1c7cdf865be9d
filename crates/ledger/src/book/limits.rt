// What a book may be answered at any time: its limit, its exposure and its colour.
ghost use Rattle.std.specs.Prelude.{◌≡◌, ◌*◌, ◌^◌, true, false, pos, negsuc, ◌*ℤ◌, ◌≤ℤ◌, MatchOption};
ghost use Rattle.letters.specs.Letters.{has_letter, letter_row};
ghost use Rattle.letters.specs.Sums.{with_sums};
ghost use Rattle.ledger.specs.Limits.{limit, exposure, colour};

use crate::book::Book;
use crate::colour::Colour;
use letters::sums::LetterSums;
use rating::RatingPolicy;

impl Book {
    // The credit part, which the rating policy scales, and the held sums of the letters whose days include today.
    pub fn limit<R: RatingPolicy>(&self, rating: &R) -> i64
        ensures { result ≡ limit (R.coefficient rating.now) self.now.figures }
    {
        let credit = credit_part(self.figures.usage, rating.rate(&self.figures.grades, false));
        credit + self.figures.letters.held_on(self.figures.today) as i64
    }

    // No bill can be posted yet, so that no month has anything due.
    pub fn exposure(&self) -> u64
        ensures { result ≡ exposure self.now.figures }
    {
        0
    }

    // The sums of the letter with this number, if the book has one.
    pub fn letter_sums(&self, number: u16) -> Option<LetterSums>
        ensures { MatchOption result (has_letter number self.now.figures.letters.rows ≡ false) (λ sums. let row = letter_row number self.now.figures.letters.rows in (has_letter number self.now.figures.letters.rows ≡ true) × (with_sums row sums ≡ row)) }
    {
        let place = self.figures.letters.find(number)?;
        match LetterSums::try_from(&self.figures.letters.row(place)) {
            Ok(sums) => Some(sums),
            // Every row of a book keeps the equation.
            Err(_) => unreachable(),
        }
    }

    pub fn colour<R: RatingPolicy>(&self, rating: &R) -> Colour
        ensures { result ≡ colour (R.coefficient rating.now) self.now.figures }
    {
        Colour::of(self.limit(rating), self.exposure())
    }
}

// 8 fen for each MWh of usage and each hundredth of the coefficient.
fn credit_part(usage: u32, coefficient: i8) -> i64
    ensures value { result ≡ pos (8 * usage) *ℤ coefficient }
    ensures small { (negsuc (2 ^ 42) ≤ℤ result) × (result ≤ℤ pos (2 ^ 42)) }
{
    8 * i64::from(usage) * i64::from(coefficient)
}

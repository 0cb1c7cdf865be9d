// How a letter ends. Its sums are made from its row, changed, and written back with the whole row.
ghost use Rattle.std.specs.Prelude.{◌≡◌};
ghost use Rattle.letters.specs.Sums.{IfBalanced, after_day, given_back, lapsed_away};

use crate::letter::{Letter, Standing};
use crate::sums::{LetterSums, Unbalanced};

impl Letter {
    // The row after the letter was given back, if the row is in balance.
    pub fn given_back(&self) -> Result<Letter, Unbalanced>
        ensures { IfBalanced self.now result (λ after. after ≡ given_back self.now) }
    {
        let sums = LetterSums::try_from(self)?;
        Ok(sums.give_back().written_to(self.ended()))
    }

    // The row after the letter has lapsed, if the row is in balance.
    pub fn lapsed_away(&self) -> Result<Letter, Unbalanced>
        ensures { IfBalanced self.now result (λ after. after ≡ lapsed_away self.now) }
    {
        let sums = LetterSums::try_from(self)?;
        Ok(sums.lapse().written_to(self.ended()))
    }

    // The row when this day has come, if it was in balance.
    pub fn after_day(&self, day: u16) -> Result<Letter, Unbalanced>
        ensures { IfBalanced self.now result (λ after. after ≡ after_day day self.now) }
    {
        if self.is_in() && self.last_day < day {
            self.lapsed_away()
        } else {
            Ok(*self)
        }
    }

    fn ended(&self) -> Letter
        ensures { result ≡ record { number = self.now.number; kind = self.now.kind; first_day = self.now.first_day; last_day = self.now.last_day; lodged = self.now.lodged; drawn = self.now.drawn; returned = self.now.returned; lapsed = self.now.lapsed; held = self.now.held; standing = Standing.Ended } }
    {
        Letter {
            standing: Standing::Ended,
            ..*self
        }
    }
}

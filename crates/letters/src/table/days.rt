// What a new day does to the letters.
ghost use Rattle.std.specs.Prelude.{◌≡◌, false, map, MatchResult};
ghost use Rattle.std.specs.List.{list_all};
ghost use Rattle.letters.specs.Letters.{balanced};
ghost use Rattle.letters.specs.Sums.{after_day};

use crate::sums::Unbalanced;
use crate::table::LetterTable;

impl LetterTable {
    // Ends the letters that are past their last day when this day has come and whose originals are in, up to the first of
    // them whose row is out of balance.
    pub fn end_past(&mut self, day: u16) -> Result<(), Unbalanced>
        ensures { MatchResult result (λ _. self.new.rows ≡ map (after_day day) self.old.rows) (λ _. list_all balanced self.old.rows ≡ false) }
    {
        for row in self.rows.iter_mut() {
            *row = row.after_day(day)?;
        }
        Ok(())
    }
}

// The table of letters: 24 rows, each free or with a letter.
ghost use Rattle.std.specs.Prelude.{◌≡◌, ◌<◌, true, false, MatchOption, replicate, slice_index_or, slice_set};
ghost use Rattle.std.specs.Fn.{FnReturnsAt};
ghost use Rattle.std.specs.List.{AllWithin, HoldsAt, list_any};
ghost use Rattle.tables.specs.Rows.{FindsFirst};
ghost use Rattle.letters.specs.Letters.{numbered, followed_by, free, held_total, held_on, starts_in_time, no_letter};

use crate::letter::Letter;

mod choosing;
mod days;

pub const PLACES: usize = 24;

// A place of the table.
#[derive(Clone, Copy, Debug, PartialEq, Eq)]
pub struct Place {
    index: usize,
    ghost within: { index < 24 },
}

#[derive(Clone, Copy, Debug, PartialEq, Eq)]
pub struct LetterTable {
    rows: [Letter; PLACES],
}

impl LetterTable {
    pub fn empty() -> LetterTable
        ensures { result.rows ≡ replicate 24 no_letter }
    {
        LetterTable {
            rows: [Letter::NONE; PLACES],
        }
    }

    pub fn from_rows(rows: [Letter; PLACES]) -> LetterTable
        ensures { result.rows ≡ rows }
    {
        LetterTable { rows }
    }

    // Where the letter with this number stands.
    pub fn find(&self, number: u16) -> Option<Place>
        ensures { FindsFirst (numbered number) self.now.rows (λ p. p.index) result }
    {
        self.first(|row| row.is_booked() && row.number == number)
    }

    // The first free place.
    pub fn free_place(&self) -> Option<Place>
        ensures { FindsFirst free self.now.rows (λ p. p.index) result }
    {
        self.first(|row| !row.is_booked())
    }

    // The place of the first row that passes a test.
    fn first<F: Fn(&Letter) -> bool>(&self, passes: F) -> Option<Place>
        requires { F.IsAlwaysCallable passes }
        ensures { MatchOption result (AllWithin (λ row. FnReturnsAt F.Fn passes row false) self.now.rows 0 24) (λ p. HoldsAt (λ row. FnReturnsAt F.Fn passes row true) self.now.rows p.index × AllWithin (λ row. FnReturnsAt F.Fn passes row false) self.now.rows 0 p.index) }
    {
        let index = self.rows.iter().position(|row| passes(row))?;
        Some(Place { index })
    }

    // Whether a letter may start on this day, its target month starting on that one.
    pub fn starts_in_time(&self, first_day: u16, target_start: u16) -> bool
        ensures { result ≡ starts_in_time first_day target_start self.now.rows }
    {
        first_day <= target_start || self.can_follow(first_day)
    }

    // Whether a letter that starts on this day may follow one of the table.
    fn can_follow(&self, first_day: u16) -> bool
        ensures { result ≡ list_any (followed_by first_day) self.now.rows }
    {
        self.rows.iter().any(|row| row.can_precede(first_day))
    }

    pub fn row(&self, place: Place) -> Letter
        ensures { result ≡ slice_index_or self.now.rows place.index no_letter }
    {
        self.rows[place.index]
    }

    pub fn put(&mut self, at: Place, row: Letter)
        ensures { self.new.rows ≡ slice_set self.old.rows at.index row }
    {
        self.rows[at.index] = row;
    }

    // All held sums.
    pub fn held(&self) -> u128
        ensures { result ≡ held_total self.now.rows }
    {
        self.rows.iter().map(|row| u128::from(row.held)).sum()
    }

    // The held sums of the letters whose days include a day.
    pub fn held_on(&self, day: u16) -> u128
        ensures { result ≡ held_on day self.now.rows }
    {
        self.rows
            .iter()
            .map(|row| u128::from(row.held_on(day)))
            .sum()
    }
}

// The Guangxi table: long streaks of good grades give credit, a poor newest grade takes some away.
ghost use Rattle.std.specs.Prelude.{◌≡◌, Bool};
ghost use Rattle.rating.specs.Guangxi.{GuangxiRule, by_newest, fits, guangxi, highest};
ghost use Rattle.rating.specs.Table.{in_range};

use crate::{Grade, Grades, RatingPolicy};

// A row of the table: so many of the latest grades are all at least this one.
#[derive(Clone, Copy, Debug, PartialEq, Eq)]
pub struct TableRow {
    pub streak: u8,
    pub least: Grade,
    pub coefficient: u8,
}

const ROWS: [TableRow; 6] = [
    TableRow {
        streak: 4,
        least: Grade::AAA,
        coefficient: 20,
    },
    TableRow {
        streak: 3,
        least: Grade::AAA,
        coefficient: 15,
    },
    TableRow {
        streak: 2,
        least: Grade::AAA,
        coefficient: 10,
    },
    TableRow {
        streak: 4,
        least: Grade::AA,
        coefficient: 10,
    },
    TableRow {
        streak: 3,
        least: Grade::AA,
        coefficient: 8,
    },
    TableRow {
        streak: 2,
        least: Grade::AA,
        coefficient: 5,
    },
];

#[derive(Clone, Copy, Debug, PartialEq, Eq)]
pub struct GuangxiTable;

impl RatingPolicy for GuangxiTable {
    ghost coefficient = { λ _. guangxi };

    ghost range = { λ policy. in_range };

    #[tactic(auto, using(crate::specs::Table::given_small))]
    fn rate(&self, grades: &Grades, _arrears: bool) -> i8
        ensures marked_or_not { (mark : Bool) → result ≡ guangxi grades.now mark }
        ensures rule { GuangxiRule grades.now result }
    {
        match highest_row(grades) {
            Some(coefficient) => coefficient as i8,
            None => by_newest(grades.newest),
        }
    }
}

// The highest coefficient of the rows that fit.
#[tactic(auto, unfolding(crate::specs::Guangxi::rows))]
fn highest_row(grades: &Grades) -> Option<u8>
    ensures { result ≡ highest grades.now }
{
    ROWS.iter()
        .filter(|row| row.fits(grades))
        .map(|row| row.coefficient)
        .max()
}

impl TableRow {
    fn fits(&self, grades: &Grades) -> bool
        ensures { result ≡ fits grades.now self.now }
    {
        self.streak <= grades.streak(self.least)
    }
}

// What the newest grade alone gives.
fn by_newest(newest: Grade) -> i8
    ensures { result ≡ by_newest newest }
{
    match newest {
        Grade::B => -30,
        Grade::C => -50,
        Grade::Unrated | Grade::A | Grade::AA | Grade::AAA => 0,
    }
}

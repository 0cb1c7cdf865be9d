// What a policy says of a row of grades, and all rows of grades.
ghost use Rattle.std.specs.Prelude.{◌≡◌, ◌%◌, true, false, MatchResult, not, [], ◌∷◌};
ghost use Rattle.refusals.specs.Conditions.{Checked, ◌gives◌};
ghost use Rattle.rating.specs.Grades.{rank};
ghost use Rattle.rating.specs.Policies.{ceiling_fits};
ghost use Rattle.refusals.specs.declared.Refusal.TheVariants.{OutOfRange};
ghost use Rattle.choices.specs.Rows.{index_of};

use rating::guangxi::GuangxiTable;
use rating::layers::{ArrearsLayer, CeilingLayer};
use rating::{Grade, Grades, RatingPolicy};
use refusals::Refusal;
use std::fmt;

// There are so many rows of four grades.
pub(crate) const ROWS: u16 = 1296;

#[derive(Clone, Copy, Debug, PartialEq, Eq)]
pub struct Rates {
    pub unmarked: i8,
    pub marked: i8,
}

pub(crate) fn rate_both<P: RatingPolicy>(policy: &P, grades: &Grades) -> Rates
    ensures { (result.unmarked ≡ P.coefficient policy.now grades.now false) × (result.marked ≡ P.coefficient policy.now grades.now true) }
{
    Rates {
        unmarked: policy.rate(grades, false),
        marked: policy.rate(grades, true),
    }
}

// The rows are counted like numbers of four digits, the newest grade in front.
pub(crate) fn grades_at(index: u16) -> Grades
    ensures { index_of result ≡ index % 1296 }
{
    Grades {
        newest: grade_at(index / 216),
        second: grade_at(index / 36),
        third: grade_at(index / 6),
        fourth: grade_at(index),
    }
}

fn grade_at(digit: u16) -> Grade
    ensures { rank result ≡ digit % 6 }
{
    match digit % 6 {
        0 => Grade::Unrated,
        1 => Grade::C,
        2 => Grade::B,
        3 => Grade::A,
        4 => Grade::AA,
        _ => Grade::AAA,
    }
}

// The arrears layer over a ceiling over the Guangxi table.
pub(crate) type Stack = ArrearsLayer<CeilingLayer<GuangxiTable>>;

pub(crate) fn stack(ceiling: i8) -> Result<Stack, Refusal>
    ensures { Checked (not (ceiling_fits ceiling) gives OutOfRange ∷ []) result (λ layer. layer.below.ceiling ≡ ceiling) }
{
    let below = CeilingLayer::new(GuangxiTable, ceiling)?;
    Ok(ArrearsLayer { below })
}

impl fmt::Display for Rates {
    fn fmt<W: fmt::Write>(&self, f: &mut fmt::Formatter<W>) -> fmt::Result {
        let unmarked = self.unmarked;
        let marked = self.marked;
        write!(f, "{unmarked} {marked}")
    }
}

// How grades are read, written and compared, and a new grade.
ghost use Rattle.std.specs.Prelude.{◌≡◌, Some, nat_le};
ghost use Rattle.std.specs.Option.{ok_or};
ghost use Rattle.refusals.specs.declared.Refusal.TheVariants.{OutOfRange};
ghost use Rattle.rating.specs.Grades.{grade_name, grade_of, graded, rank, streak};

use crate::{Grade, Grades};
use refusals::Refusal;
use std::fmt;

// The grade that a code stands for.
impl TryFrom<u8> for Grade {
    type Error = Refusal;

    ghost try_from_gives = { λ code answer. answer ≡ ok_or (grade_of code) OutOfRange };

    fn try_from(code: u8) -> Result<Grade, Refusal> {
        match code {
            0 => Ok(Grade::C),
            1 => Ok(Grade::B),
            2 => Ok(Grade::A),
            3 => Ok(Grade::AA),
            4 => Ok(Grade::AAA),
            _ => Err(Refusal::OutOfRange),
        }
    }
}

// A grade is written by its letters, and none as `none`.
impl fmt::Display for Grade {
    ghost output = { λ grade. Some (grade_name grade) };

    fn fmt<W: fmt::Write>(&self, f: &mut fmt::Formatter<W>) -> fmt::Result {
        f.write_str(match self {
            Grade::Unrated => "none",
            Grade::C => "C",
            Grade::B => "B",
            Grade::A => "A",
            Grade::AA => "AA",
            Grade::AAA => "AAA",
        })
    }
}

impl Grade {
    // Whether the grade is at least this one.
    pub fn reaches(self, least: Grade) -> bool
        ensures { result ≡ nat_le (rank least) (rank self) }
    {
        self >= least
    }
}

impl Grades {
    // A new grade drops the oldest.
    pub fn with_newest(self, newest: Grade) -> Grades
        ensures { result ≡ graded newest self }
    {
        Grades {
            newest,
            second: self.newest,
            third: self.second,
            fourth: self.third,
        }
    }

    // How many of the latest grades, from the newest on, are at least this one.
    pub fn streak(&self, least: Grade) -> u8
        ensures { result ≡ streak least self.now }
    {
        [self.newest, self.second, self.third, self.fourth]
            .iter()
            .take_while(|grade| grade.reaches(least))
            .count() as u8
    }
}

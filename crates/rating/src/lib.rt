// What the house may choose to rate a retailer by: from its latest grades and its arrears mark a coefficient, in
// hundredths, which scales the part of its limit that needs no letter.
#![tactic(auto)]

pub mod guangxi;
pub mod layers;
pub mod streaks;

ghost use Rattle.std.specs.Prelude.{Bool, ◌≡◌, ℤ, pos, negsuc, ◌≤ℤ◌};
ghost use Rattle.rating.specs.Policies.{Coefficient, InRange, flat_zero};
ghost use Rattle.rating.specs.declared.Grades.{Grades};
ghost use Rattle.std.proofs.Common.{rules};

#[derive(Clone, Copy, Debug, PartialEq, Eq, PartialOrd, Ord)]
pub enum Grade {
    // No grade was given yet.
    Unrated,
    C,
    B,
    A,
    AA,
    AAA,
}

// The four latest grades.
#[derive(Clone, Copy, Debug, PartialEq, Eq)]
pub struct Grades {
    pub newest: Grade,
    pub second: Grade,
    pub third: Grade,
    pub fourth: Grade,
}

impl Grades {
    // No grade was given yet.
    pub const NONE: Grades = Grades {
        newest: Grade::Unrated,
        second: Grade::Unrated,
        third: Grade::Unrated,
        fourth: Grade::Unrated,
    };
}

pub trait RatingPolicy {
    // The policy's meaning: a fixed function of the four grades and the arrears mark.
    ghost coefficient: { Self → Coefficient };

    fn rate(&self, grades: &Grades, arrears: bool) -> i8
        ensures { result ≡ coefficient self.now grades.now arrears };

    ghost range: { (policy : Self) → InRange (coefficient policy) };
}

// No credit and no malus for anyone.
#[derive(Clone, Copy, Debug, PartialEq, Eq)]
pub struct FlatZero;

impl RatingPolicy for FlatZero {
    ghost coefficient = { λ _. flat_zero };

    ghost range = { Prim.search rules };

    fn rate(&self, _grades: &Grades, _arrears: bool) -> i8 {
        0
    }
}

// Policies that are laid over any other.
ghost use Rattle.std.specs.Prelude.{◌≡◌, true, false, pos, ◌≤ℤ◌, MatchResult, not, [], ◌∷◌};
ghost use Rattle.refusals.specs.Conditions.{Checked, ◌gives◌};
ghost use Rattle.std.specs.Int.Signed.{le_z};
ghost use Rattle.refusals.specs.declared.Refusal.TheVariants.{OutOfRange};
ghost use Rattle.rating.specs.Policies.{SmallerOf, arrears_layer, ceiling_fits, ceiling_layer};
ghost use Rattle.std.proofs.Common.{rules, arith};

use crate::{Grades, RatingPolicy};
use refusals::Refusal;

// 0 while the arrears mark stands, and else what the policy below says.
#[derive(Debug, Drop)]
pub struct ArrearsLayer<P> {
    pub below: P,
}

impl<P: RatingPolicy> RatingPolicy for ArrearsLayer<P> {
    ghost coefficient = { λ layer. arrears_layer (P.coefficient layer.below) };

    ghost range = { Prim.search rules };

    fn rate(&self, grades: &Grades, arrears: bool) -> i8
        ensures rated { result ≡ arrears_layer (P.coefficient self.now.below) grades.now arrears }
        ensures marked { arrears ≡ true → result ≡ pos 0 }
        ensures unmarked { arrears ≡ false → result ≡ P.coefficient self.now.below grades.now false }
    {
        if arrears {
            0
        } else {
            self.below.rate(grades, arrears)
        }
    }
}

// The smaller of what the policy below says and a ceiling.
#[derive(Debug, Drop)]
pub struct CeilingLayer<P> {
    below: P,
    ceiling: i8,
    ghost least: { pos 0 ≤ℤ ceiling },
    ghost most: { ceiling ≤ℤ pos 100 },
}

impl<P: Drop> CeilingLayer<P> {
    // A ceiling outside 0 to 100 is refused.
    pub fn new(below: P, ceiling: i8) -> Result<CeilingLayer<P>, Refusal>
        ensures { Checked (not (ceiling_fits ceiling) gives OutOfRange ∷ []) result (λ layer. (layer.below ≡ below) × (layer.ceiling ≡ ceiling)) }
    {
        if !(0..=100).contains(&ceiling) {
            return Err(Refusal::OutOfRange);
        }
        Ok(CeilingLayer { below, ceiling })
    }
}

impl<P: RatingPolicy> RatingPolicy for CeilingLayer<P> {
    ghost coefficient = { λ layer. ceiling_layer layer.ceiling (P.coefficient layer.below) };

    ghost range = { Prim.grind arith };

    fn rate(&self, grades: &Grades, arrears: bool) -> i8
        ensures rated { result ≡ ceiling_layer self.now.ceiling (P.coefficient self.now.below) grades.now arrears }
        ensures smaller { SmallerOf (P.coefficient self.now.below grades.now arrears) self.now.ceiling result }
    {
        self.below.rate(grades, arrears).min(self.ceiling)
    }
}

// More orders.
ghost use Rattle.draw_order.specs.Orders.{insurance_first, smaller_held};
ghost use Rattle.std.proofs.Common.{rules};

use crate::{DrawOrder, LetterFacts};

// The letter that holds least goes first, and of two that hold as much the one with the lower number.
#[derive(Clone, Copy, Debug, PartialEq, Eq)]
pub struct SmallestHeld;

impl DrawOrder for SmallestHeld {
    ghost before = { λ _. smaller_held };

    ghost one_first = { Prim.search rules };

    ghost carries = { Prim.search rules };

    fn goes_before(&self, one: &LetterFacts, other: &LetterFacts) -> bool {
        (one.held, one.number) < (other.held, other.number)
    }
}

// Insurance policies go before bank letters. The order below decides between two of the same class.
#[derive(Debug, Drop, PartialEq, Eq)]
pub struct InsuranceFirst<O> {
    pub below: O,
}

impl<O: DrawOrder> DrawOrder for InsuranceFirst<O> {
    ghost before = { λ layer. insurance_first (O.before layer.below) };

    ghost one_first = { Prim.search rules };

    ghost carries = { Prim.search rules };

    fn goes_before(&self, one: &LetterFacts, other: &LetterFacts) -> bool {
        if one.kind.is_insurance() == other.kind.is_insurance() {
            self.below.goes_before(one, other)
        } else {
            one.kind.is_insurance()
        }
    }
}

// What the house may choose to draw letters by: of two letters, which one is claimed on before the other.
#![tactic(auto)]

pub mod orders;

ghost use Rattle.std.specs.Prelude.{◌≡◌, ℕ, Bool, ◌≢◌};
ghost use Rattle.draw_order.specs.Kinds.{insured, kind_code};
ghost use Rattle.draw_order.specs.Orders.{Order, ExactlyOneFirst, CarriesOver, earlier_last_day};
ghost use Rattle.refusals.specs.Codes.{ReadsCode};
ghost use Rattle.refusals.specs.declared.Refusal.TheVariants.{OutOfRange};
ghost use Rattle.std.proofs.Common.{rules};

use refusals::Refusal;

#[derive(Clone, Copy, Debug, PartialEq, Eq)]
pub enum LetterKind {
    // A bank letter for a single claim.
    BankSingle = 1,
    // A bank letter claimed in parts.
    BankInParts = 2,
    // An insurance policy claimed in parts.
    InsuranceInParts = 3,
}

impl TryFrom<u8> for LetterKind {
    type Error = Refusal;

    ghost try_from_gives = { ReadsCode kind_code OutOfRange };

    fn try_from(code: u8) -> Result<LetterKind, Refusal> {
        match code {
            1 => Ok(LetterKind::BankSingle),
            2 => Ok(LetterKind::BankInParts),
            3 => Ok(LetterKind::InsuranceInParts),
            _ => Err(Refusal::OutOfRange),
        }
    }
}

impl LetterKind {
    pub fn is_insurance(self) -> bool
        ensures { result ≡ insured self }
    {
        matches!(self, LetterKind::InsuranceInParts)
    }
}

// All that an order may look at in a letter.
#[derive(Clone, Copy, Debug, PartialEq, Eq)]
pub struct LetterFacts {
    pub number: u16,
    pub kind: LetterKind,
    pub first_day: u16,
    pub last_day: u16,
    pub held: u32,
}

pub trait DrawOrder {
    // The order's meaning: a fixed relation between the facts of two letters.
    ghost before: { Self → Order };

    fn goes_before(&self, one: &LetterFacts, other: &LetterFacts) -> bool
        ensures { result ≡ before self.now one.now other.now };

    ghost one_first: { (order : Self) → ExactlyOneFirst (before order) };

    ghost carries: { (order : Self) → CarriesOver (before order) };
}

// The letter that ends first goes first, and of two that end on one day the one with the lower number.
#[derive(Clone, Copy, Debug, PartialEq, Eq)]
pub struct EarliestLastDay;

impl DrawOrder for EarliestLastDay {
    ghost before = { λ _. earlier_last_day };

    ghost one_first = { Prim.search rules };

    ghost carries = { Prim.search rules };

    fn goes_before(&self, one: &LetterFacts, other: &LetterFacts) -> bool {
        (one.last_day, one.number) < (other.last_day, other.number)
    }
}

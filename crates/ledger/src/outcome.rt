// What the opening and the postings answer: nothing more where they are accepted, and else the refusal.
ghost use Rattle.std.specs.Prelude.{◌≡◌};
ghost use Rattle.ledger.specs.Outcomes.{outcome_number};

use refusals::Refusal;

pub type Outcome = Result<(), Refusal>;

// The number of an outcome.
pub fn number(outcome: Outcome) -> u8
    ensures { result ≡ outcome_number outcome }
{
    match outcome {
        Ok(()) => 0,
        Err(refusal) => refusal.number(),
    }
}

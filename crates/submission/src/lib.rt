// How the house runs a batch that is handed in: with its rating policy and its draw order, and up to so many bytes.
#![tactic(auto)]

ghost use Rattle.std.specs.Prelude.{◌≡◌};
ghost use Rattle.batch.specs.Runs.{answered_in};
ghost use Rattle.submission.specs.Submitted.{Submitted};

use batch::answer::Answer;
use batch::fault::BatchFault;
use batch::run::House;
use draw_order::EarliestLastDay;
use ledger::book::Book;
use rating::FlatZero;

// A batch has at most so many bytes.
pub const MOST_BYTES: usize = 16_384;

// The house's list has places for so many answers.
pub const MOST_ANSWERS: usize = 4_096;

pub fn submit(batch: &[u8], book: &mut Book, answers: &mut [Answer]) -> Result<usize, BatchFault>
    ensures { Submitted batch.now answers.old book.old.figures result answers.new book.new.figures }
{
    if batch.len() > MOST_BYTES {
        return Err(BatchFault::TooLong);
    }
    let house = House {
        rating: &FlatZero,
        order: &EarliestLastDay,
    };
    house.run_batch(batch, book, answers)
}

// How many records were answered: all, or those before the fault.
pub fn answered(res: &Result<usize, BatchFault>) -> usize
    ensures { result ≡ answered_in res.now }
{
    match res {
        Ok(count) => *count,
        Err(BatchFault::AtRecord(at)) => at.position.number.saturating_sub(1),
        Err(BatchFault::TooLong) => 0,
    }
}

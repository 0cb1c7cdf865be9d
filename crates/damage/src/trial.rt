// One run of a batch on a new book.
ghost use Rattle.std.specs.Prelude.{◌≡◌};
ghost use Rattle.damage.specs.Trials.{Tried, letter_holds};

use batch::answer::Answer;
use batch::fault::BatchFault;
use ledger::book::Book;
use std::fmt;
use submission::{answered, submit};

#[derive(Clone, Copy, Debug, PartialEq, Eq)]
pub struct Trial {
    pub answered: usize,
    pub fault: Option<BatchFault>,
    // What the letter with the number 7 holds.
    pub held: u32,
}

pub fn run_fresh(batch: &[u8]) -> Trial
    ensures { Tried batch.now result.answered result.fault result.held }
{
    let mut answers = [Answer::BLANK; 8];
    let mut book = Book::new();
    let result = submit(batch, &mut book, &mut answers);
    Trial {
        answered: answered(&result),
        fault: result.err(),
        held: held_by(&book, 7),
    }
}

// What the letter with a number holds: nothing where the book has none.
fn held_by(book: &Book, number: u16) -> u32
    ensures { result ≡ letter_holds number book.now.figures }
{
    book.letter_sums(number).map_or(0, |sums| sums.held())
}

impl fmt::Display for Trial {
    fn fmt<W: fmt::Write>(&self, f: &mut fmt::Formatter<W>) -> fmt::Result {
        let answered = self.answered;
        let held = self.held;
        write!(f, "{answered} answered, letter 7 holds {held}, ")?;
        match self.fault {
            Some(fault) => write!(f, "fault {fault}"),
            None => write!(f, "no fault"),
        }
    }
}

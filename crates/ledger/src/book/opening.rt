// The opening of a book.
ghost use Rattle.std.specs.Prelude.{◌≡◌};
ghost use Rattle.ledger.specs.Opening.{empty_on, opening_conditions, opening_outcome};
ghost use Rattle.ledger.specs.Outcomes.{outcome_number, Settled};
ghost use Rattle.refusals.specs.Conditions.{Checked};

use crate::book::Book;
use crate::figures::Figures;
use crate::outcome::{Outcome, number};
use crate::party::Party;
use calendar::day::Day;
use letters::table::LetterTable;
use rating::Grades;
use refusals::Refusal;

impl Book {
    // A book before its opening: empty, as if opened on day 0.
    pub fn new() -> Book
        ensures { result.figures ≡ empty_on 0 }
    {
        Book {
            figures: Figures {
                today: 0,
                usage: 0,
                grades: Grades::NONE,
                letters: LetterTable::empty(),
            },
        }
    }

    fn start_anew(&mut self, party: u8, day: u16) -> Outcome
        ensures { Settled (opening_conditions party day) self.old.figures (empty_on day) result self.new.figures }
    {
        let day = opening_day(party, day)?;
        *self = Book::new();
        self.figures.today = day.number();
        Ok(())
    }
}

// Opens the book that is lent, whatever it held, and answers the number of the outcome.
pub fn open(book: &mut Book, party: u8, day: u16) -> u8
    ensures number { result ≡ outcome_number (opening_outcome party day) }
    ensures settled { Settled (opening_conditions party day) book.old.figures (empty_on day) (opening_outcome party day) book.new.figures }
{
    number(book.start_anew(party, day))
}

fn opening_day(party: u8, day: u16) -> Result<Day, Refusal>
    ensures { Checked (opening_conditions party day) result (λ d. d ≡ day) }
{
    Party::Centre.admit(party)?;
    Day::new(day).ok_or(Refusal::OutOfRange)
}

// The run of a batch: record after record is read, posted and answered, up to the first fault.
ghost use Rattle.std.specs.Prelude.{◌≡◌, ◌+◌, ◌-◌, ◌^◌, ◌<◌, ◌≤◌, true, false, length, drop, Some, None, MatchResult, ◌==◌};
ghost use Rattle.refusals.specs.Conditions.{Checked};
ghost use Rattle.records.specs.Readers.{HandsOn};
ghost use Rattle.records.specs.Records.{record_in, record_length};
ghost use Rattle.batch.specs.Runs.{Ran, answer_to, book_after_record, faults, located, turn_faults};
ghost use Rattle.records.specs.declared.fault.RecordFault.TheVariants.{ListFull};

use crate::answer::Answer;
use crate::fault::{BatchFault, FaultAt, Position};
use draw_order::DrawOrder;
use ledger::book::{Book, open};
use rating::RatingPolicy;
use records::fault::RecordFault;
use records::record::{Entry, Record, read_record};

// What the house chooses: how it rates a retailer, and in which order it draws its letters.
#[derive_where(Clone, Copy)]
pub struct House<'a, R, O> {
    pub rating: &'a R,
    pub order: &'a O,
}

impl<R: RatingPolicy, O: DrawOrder> House<'_, R, O> {
    // Runs a batch on the book and the list that are lent. Each record that is read fills the next place of the list; the
    // places behind it stay as they are. Answers how many records were answered.
    pub fn run_batch(
        &self,
        batch: &[u8],
        book: &mut Book,
        answers: &mut [Answer],
    ) -> Result<usize, BatchFault>
        ensures { Ran (R.coefficient self.now.rating.now) (O.before self.now.order.now) batch.now answers.old book.old.figures result answers.new book.new.figures }
    {
        let mut rest = batch;
        for (count, place) in answers.iter_mut().enumerate() {
            if rest.is_empty() {
                return Ok(count);
            }
            let here = position(batch, rest, count);
            let (answer, behind) = here.locate(self.take_record(rest, book, here.number))?;
            *place = answer;
            rest = behind;
        }
        let here = position(batch, rest, answers.len());
        here.locate(no_more(rest))?;
        Ok(answers.len())
    }

    // Reads the record that a part of a batch starts with, posts it and answers it.
    fn take_record<'p>(
        &self,
        part: &'p [u8],
        book: &mut Book,
        number: usize,
    ) -> Result<(Answer, &'p [u8]), RecordFault>
        ensures fault { Checked (faults number book.old.figures part.now) result (HandsOn (record_length part.now) (answer_to (R.coefficient self.now.rating.now) number book.old.figures (record_in part.now)) part.now) }
        ensures after { MatchResult result (λ _. book.new.figures ≡ book_after_record book.old.figures (record_in part.now)) (λ _. book.new.figures ≡ book.old.figures) }
    {
        let (record, behind) = read_record(part)?;
        let answer = self.post_record(book, record, number)?;
        Ok((answer, behind))
    }

    // Posts a record that was read, as the one with this number in its batch, and answers it.
    fn post_record(
        &self,
        book: &mut Book,
        record: Record,
        number: usize,
    ) -> Result<Answer, RecordFault>
        ensures fault { Checked (turn_faults number book.old.figures «record») result (λ answer. answer ≡ answer_to (R.coefficient self.now.rating.now) number book.old.figures «record») }
        ensures after { MatchResult result (λ _. book.new.figures ≡ book_after_record book.old.figures «record») (λ _. book.new.figures ≡ book.old.figures) }
    {
        let result = match record.entry {
            Entry::Opening { day } => {
                if number != 1 {
                    return Err(RecordFault::OutOfTurn);
                }
                if open(book, record.party, day) != 0 {
                    return Err(RecordFault::OutOfTurn);
                }
                Ok(())
            }
            Entry::Lodge(terms) => {
                if number == 1 {
                    return Err(RecordFault::OutOfTurn);
                }
                book.lodge(record.party, terms, self.rating, self.order)
            }
        };
        Ok(Answer {
            number,
            kind: record.entry.kind(),
            result,
            colour: book.colour(self.rating),
        })
    }
}

// Where the record stands that the rest of a batch starts with, when so many were answered.
fn position(batch: &[u8], rest: &[u8], answered: usize) -> Position
    requires { (length rest.now ≤ length batch.now) × (answered + 1 < 2 ^ 64) }
    ensures { result ≡ record { number = answered + 1; offset = length batch.now - length rest.now } }
{
    Position {
        number: answered + 1,
        offset: batch.len() - rest.len(),
    }
}

// No place is left for what a part of a batch holds.
fn no_more(part: &[u8]) -> Result<(), RecordFault>
    ensures { MatchResult result (λ _. (length part.now == 0) ≡ true) (λ fault. ((length part.now == 0) ≡ false) × (fault ≡ ListFull)) }
{
    if part.is_empty() {
        Ok(())
    } else {
        Err(RecordFault::ListFull)
    }
}

impl Position {
    // A record's fault at its place in the batch.
    fn locate<T>(self, taken: Result<T, RecordFault>) -> Result<T, FaultAt>
        ensures { result ≡ located self taken }
    {
        taken.map_err(|fault| FaultAt {
            position: self,
            fault,
        })
    }
}

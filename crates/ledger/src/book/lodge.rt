// The posting of a new letter.
ghost use Rattle.std.specs.Prelude.{◌≡◌, ◌+◌, ◌≤◌, true, false, MatchResult, not, [], ◌∷◌};
ghost use Rattle.std.specs.List.{position_or_len};
ghost use Rattle.letters.specs.Letters.{free, held_total};
ghost use Rattle.refusals.specs.Conditions.{Checked, ◌gives◌};
ghost use Rattle.refusals.specs.declared.Refusal.TheVariants.{OutOfRange};
ghost use Rattle.ledger.specs.Lodge.{lodge_conditions, lodged, in_range, days_fit, kind_of, new_letter};
ghost use Rattle.ledger.specs.Outcomes.{Settled};

use crate::book::Book;
use crate::outcome::Outcome;
use crate::party::Party;
use crate::terms::LetterTerms;
use calendar::day::Day;
use calendar::month::Month;
use draw_order::{DrawOrder, LetterKind};
use letters::letter::{Letter, Standing};
use letters::sums::LetterSums;
use letters::table::Place;
use rating::RatingPolicy;
use refusals::Refusal;
use refusals::ranges::{is_number, is_sum};

// No held sums may add up to more, in fen.
const MOST_HELD: u128 = 3_000_000_000;

// Terms whose figures are all in their ranges, and what they stand for.
#[derive(Clone, Copy, Debug, PartialEq, Eq)]
struct TermsInRange {
    terms: LetterTerms,
    kind: LetterKind,
    target: Month,
    // The target month needs six months after it.
    sixth: Month,
    ghost of_kind: { kind ≡ kind_of terms.kind },
    ghost of_target: { target ≡ terms.target_month },
    ghost of_sixth: { sixth ≡ terms.target_month + 6 },
}

// A letter that may be lodged, and the place for it.
#[derive(Clone, Copy, Debug, PartialEq, Eq)]
struct NewLetter {
    place: Place,
    row: Letter,
}

impl Book {
    pub fn lodge<R: RatingPolicy, O: DrawOrder>(
        &mut self,
        party: u8,
        terms: LetterTerms,
        _rating: &R,
        _order: &O,
    ) -> Outcome
        ensures { Settled (lodge_conditions self.old.figures party terms) self.old.figures (lodged self.old.figures terms) result self.new.figures }
    {
        let new = self.check_lodge(party, terms)?;
        self.figures.letters.put(new.place, new.row);
        Ok(())
    }

    fn check_lodge(&self, party: u8, terms: LetterTerms) -> Result<NewLetter, Refusal>
        ensures { Checked (lodge_conditions self.now.figures party terms) result (λ p. (p.place.index ≡ position_or_len free self.now.figures.letters.rows) × (p.row ≡ new_letter terms) × (held_total self.now.figures.letters.rows + terms.sum ≤ 3000000000)) }
    {
        Party::Centre.admit(party)?;
        let letter = TermsInRange::try_from(terms)?;
        if self.figures.letters.find(terms.number).is_some() {
            return Err(Refusal::NumberTaken);
        }
        let place = self.figures.letters.free_place().ok_or(Refusal::NoPlace)?;
        if !self.days_fit(&letter) {
            return Err(Refusal::DaysDoNotFit);
        }
        if self.figures.letters.held() + u128::from(terms.sum) > MOST_HELD {
            return Err(Refusal::TotalTooLarge);
        }
        Ok(NewLetter {
            place,
            row: letter.row(),
        })
    }

    fn days_fit(&self, letter: &TermsInRange) -> bool
        ensures { result ≡ days_fit self.now.figures letter.now.terms }
    {
        let terms = letter.terms;
        self.figures.today <= terms.last_day
            && terms.first_day <= terms.last_day
            && letter.sixth.last_day().number() <= terms.last_day
            && self
                .figures
                .letters
                .starts_in_time(terms.first_day, letter.target.first_day().number())
    }
}

impl TryFrom<LetterTerms> for TermsInRange {
    type Error = Refusal;

    ghost try_from_gives = { λ terms r. Checked (not (in_range terms) gives OutOfRange ∷ []) r (λ letter. letter.terms ≡ terms) };

    fn try_from(terms: LetterTerms) -> Result<TermsInRange, Refusal> {
        let kind = LetterKind::try_from(terms.kind)?;
        let target = Month::new(terms.target_month).ok_or(Refusal::OutOfRange)?;
        let sixth = target.later(6).ok_or(Refusal::OutOfRange)?;
        Day::new(terms.first_day).ok_or(Refusal::OutOfRange)?;
        Day::new(terms.last_day).ok_or(Refusal::OutOfRange)?;
        if !is_number(terms.number) || !is_sum(terms.sum) {
            return Err(Refusal::OutOfRange);
        }
        Ok(TermsInRange {
            terms,
            kind,
            target,
            sixth,
        })
    }
}

impl TermsInRange {
    // The row of the new letter.
    fn row(&self) -> Letter
        ensures { result ≡ new_letter self.now.terms }
    {
        LetterSums::lodge(self.terms.sum).written_to(Letter {
            number: self.terms.number,
            kind: self.kind,
            first_day: self.terms.first_day,
            last_day: self.terms.last_day,
            standing: Standing::In,
            ..Letter::NONE
        })
    }
}

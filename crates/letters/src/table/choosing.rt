// Which letter is claimed on first: the usable one that the order puts before every other.
ghost use Rattle.std.specs.Prelude.{◌≡◌, ◌<◌, true, false, length, IfSome, if◌then◌else◌, Some, None, MatchOption, slice_index_or};
ghost use Rattle.std.specs.List.{list_any};
ghost use Rattle.letters.specs.Choosing.{FirstUsable, OnlyFirstUsable, goes_first, usable};
ghost use Rattle.tables.specs.Rows.{FindsFirst};
ghost use Rattle.letters.specs.Letters.{distinct_numbers, no_letter};

use crate::letter::Letter;
use crate::table::{LetterTable, Place};
use draw_order::{DrawOrder, LetterFacts};

// A usable letter, and where it stands.
#[derive(Clone, Copy, Debug, PartialEq, Eq)]
struct Candidate {
    index: usize,
    facts: LetterFacts,
}

impl LetterTable {
    // The place of the usable letter that goes first.
    pub fn choose<O: DrawOrder>(&self, day: u16, order: &O) -> Option<Place>
        ensures some { MatchOption result (list_any (usable day) self.now.rows ≡ false) (λ _. list_any (usable day) self.now.rows ≡ true) }
        ensures first { distinct_numbers self.now.rows ≡ true → FindsFirst (goes_first (O.before order.now) day self.now.rows) self.now.rows (λ p. p.index) result }
        ensures only { distinct_numbers self.now.rows ≡ true → IfSome result (λ p. OnlyFirstUsable (O.before order.now) day self.now.rows p.index) }
    {
        let first = first_usable(&self.rows, day, order)?;
        Some(Place { index: first.index })
    }
}

fn first_usable<O: DrawOrder>(rows: &[Letter], day: u16, order: &O) -> Option<Candidate>
    ensures some { MatchOption result (list_any (usable day) rows.now ≡ false) (λ c. (c.index < length rows.now) × (usable day (slice_index_or rows.now c.index no_letter) ≡ true)) }
    ensures first { distinct_numbers rows.now ≡ true → IfSome result (λ c. FirstUsable (O.before order.now) day rows.now c.index) }
{
    let mut first = None;
    for (index, row) in rows.iter().enumerate() {
        if row.is_usable(day) {
            first = Some(Candidate {
                index,
                facts: row.into(),
            }
            .or_before(first, order));
        }
    }
    first
}

impl Candidate {
    // The one of two letters that goes first, this one if it is alone.
    fn or_before<O: DrawOrder>(self, other: Option<Candidate>, order: &O) -> Candidate
        ensures { result ≡ elim other [ None ↦ self | Some ahead ↦ (if O.before order.now self.facts ahead.facts then self else ahead) ] }
    {
        match other {
            Some(ahead) if !order.goes_before(&self.facts, &ahead.facts) => ahead,
            _ => self,
        }
    }
}

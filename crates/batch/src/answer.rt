// What a record is answered, and the line that shows it.
ghost use Rattle.std.specs.Prelude.{Some};
ghost use Rattle.batch.specs.Lines.{answer_line};

use ledger::colour::Colour;
use ledger::outcome::{self, Outcome};
use records::kind::Kind;
use std::fmt;

#[derive(Clone, Copy, Debug, PartialEq, Eq)]
pub struct Answer {
    // The record's number in its batch, from 1.
    pub number: usize,
    pub kind: Kind,
    pub result: Outcome,
    // The colour of the book after it.
    pub colour: Colour,
}

impl Answer {
    // What a place of the list holds before it is filled.
    pub const BLANK: Answer = Answer {
        number: 0,
        kind: Kind::Opening,
        result: Ok(()),
        colour: Colour::Red,
    };
}

impl fmt::Display for Answer {
    ghost output = { λ answer. Some (answer_line answer) };

    fn fmt<W: fmt::Write>(&self, f: &mut fmt::Formatter<W>) -> fmt::Result {
        let number = self.number;
        let kind = self.kind;
        let result = outcome::number(self.result);
        let colour = self.colour;
        write!(f, "{number} {kind} {result} {colour}")
    }
}

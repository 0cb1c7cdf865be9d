// A table of letters, and which of them an order chooses.
ghost use Rattle.std.specs.Prelude.{◌≡◌, true, cond};
ghost use Rattle.letters.specs.Letters.{distinct_numbers};
ghost use Rattle.choices.specs.Draws.{chosen_number, row_in, shown_number};

use draw_order::{DrawOrder, LetterKind};
use letters::letter::{Letter, Standing};
use letters::table::{LetterTable, PLACES};

// The number of the letter that an order puts first, if one is usable.
pub(crate) fn first_number<O: DrawOrder>(table: &LetterTable, day: u16, order: &O) -> Option<u16>
    ensures { distinct_numbers table.now.rows ≡ true → result ≡ chosen_number (O.before order.now) day table.now.rows }
{
    let place = table.choose(day, order)?;
    Some(table.row(place).number)
}

// The number that is shown for a day: 0 where no letter is usable.
pub(crate) fn shown_number<O: DrawOrder>(table: &LetterTable, day: u16, order: &O) -> u16
    ensures { distinct_numbers table.now.rows ≡ true → result ≡ shown_number (O.before order.now) day table.now.rows }
{
    first_number(table, day, order).unwrap_or(0)
}

fn lodged(number: u16, kind: LetterKind, first_day: u16, last_day: u16, held: u32) -> Letter
    ensures { result ≡ row_in number kind first_day last_day held }
{
    Letter {
        number,
        kind,
        first_day,
        last_day,
        lodged: held,
        held,
        standing: Standing::In,
        ..Letter::NONE
    }
}

pub(crate) fn letters() -> [Letter; PLACES]
    ensures { distinct_numbers result ≡ true }
{
    let single = LetterKind::BankSingle;
    let parts = LetterKind::BankInParts;
    let insured = LetterKind::InsuranceInParts;
    let out = Letter {
        standing: Standing::Out { demanded: 50 },
        ..lodged(4, parts, 0, 3, 50)
    };
    let ended = Letter {
        standing: Standing::Ended,
        ..lodged(12, insured, 0, 30, 1)
    };
    [
        lodged(9, single, 0, 20, 700),
        lodged(3, parts, 0, 20, 700),
        Letter::NONE,
        lodged(15, insured, 2, 10, 900),
        lodged(7, parts, 1, 9, 300),
        lodged(6, single, 1, 9, 300),
        lodged(5, insured, 3, 9, 301),
        out,
        ended,
        lodged(8, parts, 4, 8, 0),
        lodged(20, insured, 5, 25, 299),
        lodged(2, single, 11, 12, 100),
        lodged(1, insured, 11, 11, 100),
        lodged(30, single, 22, 24, 100),
        lodged(31, parts, 22, 24, 100),
        lodged(40, insured, 24, 28, 4000),
        lodged(41, insured, 24, 27, 4001),
        Letter::NONE,
        Letter::NONE,
        Letter::NONE,
        Letter::NONE,
        Letter::NONE,
        Letter::NONE,
        Letter::NONE,
    ]
}

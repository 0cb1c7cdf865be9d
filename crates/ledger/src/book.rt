// The book of one retailer. Its type carries what holds of the figures of every book that can be.
ghost use Rattle.std.specs.Prelude.{◌≡◌, ◌≤◌, true};
ghost use Rattle.letters.specs.Letters.{held_total, sound_row};
ghost use Rattle.std.specs.List.{list_all};

use crate::figures::Figures;

mod limits;
mod lodge;
mod opening;

pub use opening::open;

#[derive(Debug, Drop, PartialEq, Eq)]
pub struct Book {
    figures: Figures,
    ghost dated: { figures.today ≤ 7304 },
    ghost rows: { list_all sound_row figures.letters.rows ≡ true },
    ghost held: { held_total figures.letters.rows ≤ 3000000000 },
}

// All figures of a book, as plain numbers and tables.
use letters::table::LetterTable;
use rating::Grades;

#[derive(Clone, Copy, Debug, PartialEq, Eq)]
pub struct Figures {
    pub today: u16,
    // What the retailer's customers used in the last twelve months, in MWh.
    pub usage: u32,
    pub grades: Grades,
    pub letters: LetterTable,
}

// The letters of a book: what a row of their table holds, the sums of a letter, and the table.
#![tactic(auto)]

mod ending;
pub mod letter;
pub mod sums;
pub mod table;

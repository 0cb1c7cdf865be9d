// What the months of a book were billed and paid, and how much of it is outstanding.
#![tactic(auto)]

pub mod account;
pub mod table;
pub mod terms;

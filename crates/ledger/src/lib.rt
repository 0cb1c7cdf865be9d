// The book of one retailer: its figures, the opening and the postings.
#![tactic(auto)]

pub mod book;
pub mod colour;
pub mod figures;
pub mod outcome;
pub mod party;
pub mod terms;

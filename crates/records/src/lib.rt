// The records of a batch: their format, and how one is read.
#![tactic(auto)]

pub mod fault;
pub mod field;
pub mod kind;
pub mod record;

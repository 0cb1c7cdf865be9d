// What the run of a batch does to a book and a list of answers.
#![tactic(auto)]

pub mod answer;
pub mod fault;
pub mod run;

// Days and months of the ledger, by the calendar's rule.
// Day 0 is 1 January 2024 and day 7,304 is 31 December 2043; month 0 is January 2024 and month 239 December 2043.
#![tactic(auto)]

pub mod day;
pub mod month;

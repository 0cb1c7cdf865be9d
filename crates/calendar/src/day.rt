// A day of the ledger.
ghost use Rattle.std.specs.Prelude.{◌≡◌, ℕ, ◌<◌, ◌≤◌, MatchOption};
ghost use Rattle.calendar.specs.Calendar.{InMonth, month_of};

use crate::month::{LAST_MONTH, Month, start};
use std::marker::Model;

// The last day that has a number.
const LAST_DAY: u16 = 7304;

#[derive(Clone, Copy, Debug, PartialEq, Eq, PartialOrd, Ord)]
pub struct Day {
    pub(crate) number: u16,
}

impl Model for Day {
    ghost Value = { ℕ };

    ghost view = { λ day. day.number };

    ghost invariant = { λ day. day.number ≤ 7304 };

    ghost inverse = { λ n. record { number = n } };
}

impl Day {
    pub fn new(number: u16) -> Option<Day>
        ensures { MatchOption result (7304 < number) (λ d. d ≡ number) }
    {
        if number > LAST_DAY {
            return None;
        }
        Some(Day { number })
    }

    pub fn number(self) -> u16
        ensures { result ≡ self }
    {
        self.number
    }

    // The month whose first and last day enclose this day.
    pub fn month(self) -> Month
        ensures value { result ≡ month_of self }
        ensures encloses { InMonth self result }
        ensures alone { (m : ℕ) → InMonth self m → m ≡ result }
    {
        // No month has more than 31 days, so the day's month is not before this one.
        let earliest = (self.number / 31) as u8;
        for month in earliest..LAST_MONTH {
            if self.number < start(month + 1) {
                return Month { number: month };
            }
        }
        Month { number: LAST_MONTH }
    }
}

// A month of the ledger.
ghost use Rattle.std.specs.Prelude.{◌≡◌, ℕ, ◌+◌, ◌<◌, ◌≤◌, MatchOption};
ghost use Rattle.calendar.specs.Calendar.{first_day_of, last_day_of};

use crate::day::Day;
use std::marker::Model;

// The last month that has a number.
pub(crate) const LAST_MONTH: u8 = 239;

// How many days of a common year come before each of its months.
const DAYS_BEFORE: [u16; 12] = [0, 31, 59, 90, 120, 151, 181, 212, 243, 273, 304, 334];

#[derive(Clone, Copy, Debug, PartialEq, Eq, PartialOrd, Ord)]
pub struct Month {
    pub(crate) number: u8,
}

impl Model for Month {
    ghost Value = { ℕ };

    ghost view = { λ month. month.number };

    ghost invariant = { λ month. month.number ≤ 239 };

    ghost inverse = { λ n. record { number = n } };
}

impl Month {
    pub fn new(number: u8) -> Option<Month>
        ensures { MatchOption result (239 < number) (λ m. m ≡ number) }
    {
        if number > LAST_MONTH {
            return None;
        }
        Some(Month { number })
    }

    pub fn number(self) -> u8
        ensures { result ≡ self }
    {
        self.number
    }

    // The month so many months after this one.
    pub fn later(self, months: u8) -> Option<Month>
        ensures { MatchOption result (239 < self + months) (λ m. m ≡ self + months) }
    {
        Month::new(self.number.checked_add(months)?)
    }

    pub fn first_day(self) -> Day
        ensures { result ≡ first_day_of self }
    {
        Day {
            number: start(self.number),
        }
    }

    pub fn last_day(self) -> Day
        ensures { result ≡ last_day_of self }
    {
        Day {
            number: start(self.number + 1) - 1,
        }
    }
}

// The first day of a month, one past the last month included.
pub(crate) fn start(month: u8) -> u16
    requires { month ≤ 240 }
    ensures { result ≡ first_day_of month }
{
    let year = u16::from(month / 12);
    let of_year = usize::from(month % 12);
    // 2024 is a leap year, and so is each fourth year after it.
    let leap_days_before = (year + 3) / 4;
    let leap_day = u16::from(year % 4 == 0 && of_year > 1);
    365 * year + leap_days_before + leap_day + DAYS_BEFORE[of_year]
}

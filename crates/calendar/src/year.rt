// Years: their lengths, their months, and the date of a day of a year.
ghost use Rattle.std.specs.Prelude.{◌≡◌, ℕ, ◌+◌, ◌-◌, ◌*◌, ◌/◌, ◌<◌, ◌≤◌, true, false};
ghost use Rattle.calendar.specs.Calendar.{leap, february, year_length, month_length, days_of_months};

use crate::civil::Date;

/// The Gregorian years repeat their lengths after these many days.
const DAYS_IN_400_YEARS: u32 = 146_097;

/// A century whose last year is no leap year; every fourth has a day more.
const DAYS_IN_100_YEARS: u32 = 36_524;

/// Four years, the last of them a leap year.
const DAYS_IN_4_YEARS: u32 = 1_461;

const DAYS_IN_YEAR: u32 = 365;

fn is_gregorian_leap_year(year: u16) -> bool
    ensures { result ≡ leap true year }
{
    year % 400 == 0 || (year % 4 == 0 && year % 100 != 0)
}

fn february_length(is_leap: bool) -> u8
    ensures { result ≡ february is_leap }
{
    if is_leap { 29 } else { 28 }
}

fn month_length(is_leap: bool, month: u8) -> u8
    ensures { result ≡ month_length is_leap month }
{
    match month {
        2 => february_length(is_leap),
        4 | 6 | 9 | 11 => 30,
        _ => 31,
    }
}

/// A day of a year, counted from 0.
#[derive(Clone, Copy)]
pub(crate) struct YearDay {
    pub(crate) year: u16,
    pub(crate) is_leap: bool,
    pub(crate) day: u16,
    pub ghost in_year: { day < year_length is_leap },
}

impl YearDay {
    /// The day of that number, counted from 1601-01-01 by the Gregorian rule.
    pub(crate) fn gregorian(since_1601: u32) -> YearDay
        requires { since_1601 < 3100000 }
        ensures counts { 365 * (result.year - 1601) + (result.year - 1601) / 4 - (result.year - 1601) / 100 + (result.year - 1601) / 400 + result.day ≡ since_1601 }
        ensures rule { result.is_leap ≡ leap true result.year }
        ensures low { 1601 ≤ result.year }
    {
        let cycles = since_1601 / DAYS_IN_400_YEARS;
        let of_cycle = since_1601 % DAYS_IN_400_YEARS;
        let centuries = (of_cycle / DAYS_IN_100_YEARS).min(3);
        let of_century = of_cycle - centuries * DAYS_IN_100_YEARS;
        let fours = of_century / DAYS_IN_4_YEARS;
        let of_four = of_century % DAYS_IN_4_YEARS;
        let ones = (of_four / DAYS_IN_YEAR).min(3);
        // years and days fit their fields: a `try_from` would add a refusal that never comes
        let year = (1601 + cycles * 400 + centuries * 100 + fours * 4 + ones) as u16;
        YearDay {
            year,
            is_leap: is_gregorian_leap_year(year),
            day: (of_four - ones * DAYS_IN_YEAR) as u16,
        }
    }

    /// The month that the day falls in, and the day of the month, both from 1.
    pub(crate) fn date(self) -> Date
        ensures year { result.year ≡ self.year }
        ensures month { (1 ≤ result.month) × (result.month ≤ 12) }
        ensures day { (1 ≤ result.day) × (result.day ≤ month_length self.is_leap result.month) }
        ensures counts { days_of_months self.is_leap (result.month - 1) + (result.day - 1) ≡ self.day }
    {
        let mut left = self.day;
        for month in 1..12 {
            let length = u16::from(month_length(self.is_leap, month));
            if left < length {
                return Date {
                    year: self.year,
                    month,
                    day: left as u8 + 1,
                };
            }
            left -= length;
        }
        Date {
            year: self.year,
            month: 12,
            day: left as u8 + 1,
        }
    }
}

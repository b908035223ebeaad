// The days that a system numbers.
ghost use Rattle.std.specs.Prelude.{◌≡◌, ◌+◌, ◌-◌, ◌<◌, ◌≤◌, is_ok, IfOk, nat_le};
ghost use Rattle.calendar.specs.Calendar.{leap, days_of_years, start_year, start_days, last_day, CountsTo};

use crate::civil::{Date, DateFault};
use crate::year::YearDay;

/// From 1601-01-01, where a cycle of 400 years begins, to 1901-01-01 and to 1904-01-01.
const DAYS_BEFORE_1901: u32 = 109_572;

const DAYS_BEFORE_1904: u32 = 110_667;

/// The 1900 system counts its own 1900 as a leap year: serial days 1 to 366.
const DAYS_IN_OWN_1900: u32 = 366;

/// The last serial day of a system: 9999-12-31.
fn last_day(is_1904: bool) -> u32
    ensures { result ≡ last_day is_1904 }
{
    if is_1904 { 2_957_003 } else { 2_958_465 }
}

/// A day by the number that it has in the 1904 system, or in the 1900 system.
#[derive(Clone, Copy)]
pub(crate) struct SerialDay {
    // A flag, as in the public call and the definitions: an enum of the two systems would be turned back in every clause.
    is_1904: bool,
    number: u32,
    ghost in_calendar: { number ≤ last_day is_1904 },
}

impl SerialDay {
    /// The day of that number; refused past the system's last.
    pub(crate) fn new(is_1904: bool, number: u64) -> Result<SerialDay, DateFault>
        ensures accepts { is_ok result ≡ nat_le number (last_day is_1904) }
        ensures kept { IfOk result (λ day. (day.is_1904 ≡ is_1904) × (day.number ≡ number)) }
    {
        if number > u64::from(last_day(is_1904)) {
            return Err(DateFault::OutsideCalendar);
        }
        Ok(SerialDay {
            is_1904,
            // it fits: a `try_from` would add a refusal that never comes
            number: number as u32,
        })
    }

    /// The day in its year. Only 1899-12-31 and the 1900 system's own 1900 are not by the Gregorian count.
    #[tactic(auto, using(crate::proofs::Years::since_start))]
    fn year_day(self) -> YearDay
        ensures counts { days_of_years self.is_1904 (start_year self.is_1904) (result.year - start_year self.is_1904) + result.day ≡ self.number + start_days self.is_1904 }
        ensures rule { result.is_leap ≡ leap self.is_1904 result.year }
        ensures low { start_year self.is_1904 ≤ result.year }
    {
        if self.is_1904 {
            YearDay::gregorian(self.number + DAYS_BEFORE_1904)
        } else if self.number == 0 {
            YearDay {
                year: 1899,
                is_leap: false,
                day: 364,
            }
        } else if self.number <= DAYS_IN_OWN_1900 {
            YearDay {
                year: 1900,
                is_leap: true,
                day: (self.number - 1) as u16,
            }
        } else {
            YearDay::gregorian(self.number - 1 - DAYS_IN_OWN_1900 + DAYS_BEFORE_1901)
        }
    }

    /// The date that counts to the day.
    pub(crate) fn date(self) -> Date
        ensures { CountsTo self.is_1904 result self.number }
    {
        self.year_day().date()
    }
}

// Serial dates of spreadsheets: a number of days since day 0, with the time of day as its fraction.
// In the 1900 system day 0 is 1899-12-31, and 1900 is taken for a leap year; in the 1904 system day 0 is 1904-01-01.
#![tactic(auto)]

ghost use Rattle.std.specs.Prelude.{◌≡◌, Result};
ghost use Rattle.calendar.specs.Serial.{answer, Says};

pub mod civil;
mod clock;
mod day;
mod year;

use civil::{CivilTime, DateFault};
use clock::Elapsed;
use day::SerialDay;

const MILLIS_IN_DAY: u64 = 86_400_000;

const MILLIS_IN_HOUR: u64 = 3_600_000;

const MILLIS_IN_MINUTE: u64 = 60_000;

const MILLIS_IN_SECOND: u64 = 1_000;

/// The date and the time of a serial, to the nearest millisecond. A serial that is below 0, not a number, or so near the
/// end of 9999-12-31 or past it that it rounds to a later day, is refused.
pub fn to_ymd_hms_milli(serial: f64, is_1904: bool) -> Result<CivilTime, DateFault>
    ensures value { result ≡ answer is_1904 serial }
    ensures says { Says is_1904 serial result }
{
    let count = Elapsed::from_serial(serial)?.millis();
    let day = SerialDay::new(is_1904, count / MILLIS_IN_DAY)?;
    // Each part of the time is a remainder that fits its field: a `try_from` would add a refusal that never comes.
    Ok(CivilTime {
        date: day.date(),
        hour: (count / MILLIS_IN_HOUR % 24) as u8,
        minute: (count / MILLIS_IN_MINUTE % 60) as u8,
        second: (count / MILLIS_IN_SECOND % 60) as u8,
        milli: (count % MILLIS_IN_SECOND) as u16,
    })
}

#[cfg(test)]
mod tests;

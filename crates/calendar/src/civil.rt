// What a serial is turned into.
ghost use Rattle.calendar.specs.Serial.{told};

use questions::fault::Fault;

/// A day of the civil calendar, or 1900-02-29 of the 1900 system, which never was.
#[derive(Clone, Copy, PartialEq, Debug)]
pub struct Date {
    pub year: u16,
    pub month: u8,
    pub day: u8,
}

/// A date and the time of that day, to the millisecond.
#[derive(Clone, Copy, PartialEq, Debug)]
pub struct CivilTime {
    pub date: Date,
    pub hour: u8,
    pub minute: u8,
    pub second: u8,
    pub milli: u16,
}

/// Why a serial has no civil time.
#[derive(Clone, Copy, PartialEq, Debug)]
pub enum DateFault {
    /// The serial is below 0, not a number, or past 9999-12-31. Number 15.
    OutsideCalendar,
}

impl Fault for DateFault {
    ghost told = { told };

    fn number(&self) -> u8 {
        match *self {
            DateFault::OutsideCalendar => 15,
        }
    }
}

// What a serial date tells of itself.
ghost use Rattle.std.specs.Prelude.{◌≡◌};
ghost use Rattle.calendar.specs.Serial.{answer, Says};
ghost use Rattle.datatype.specs.Serials.{serial_of, is_duration, is_datetime, Holds};

use crate::excel_date_time::{ExcelDateTime, ExcelDateTimeType};
use calendar::civil::{CivilTime, DateFault};
use calendar::to_ymd_hms_milli;
use std::num::{f64_from_bits_with_nan, f64_to_bits_with_nan};

impl ExcelDateTime {
    /// A serial of this value; every not-a-number is kept as one.
    pub fn new(value: f64, datetime_type: ExcelDateTimeType, is_1904: bool) -> ExcelDateTime
        ensures { Holds result value datetime_type is_1904 }
    {
        ExcelDateTime {
            bits: f64_to_bits_with_nan(value),
            datetime_type,
            is_1904,
        }
    }

    // Two calls, and not one with a parameter: calamine has both.

    /// Whether it is a length of time.
    pub fn is_duration(&self) -> bool
        ensures { result ≡ is_duration self.now }
    {
        matches!(self.datetime_type, ExcelDateTimeType::TimeDelta)
    }

    /// Whether it is a point in time.
    pub fn is_datetime(&self) -> bool
        ensures { result ≡ is_datetime self.now }
    {
        matches!(self.datetime_type, ExcelDateTimeType::DateTime)
    }

    /// The serial as a float.
    pub fn as_f64(&self) -> f64
        ensures { result ≡ serial_of self.now }
    {
        f64_from_bits_with_nan(self.bits)
    }

    /// The civil date and time of the serial, to the millisecond; refused outside its system's calendar.
    /// It does not ask whether the serial is a point or a length of time.
    pub fn to_ymd_hms_milli(&self) -> Result<CivilTime, DateFault>
        ensures value { result ≡ answer self.now.is_1904 (serial_of self.now) }
        ensures says { Says self.now.is_1904 (serial_of self.now) result }
    {
        to_ymd_hms_milli(self.as_f64(), self.is_1904)
    }
}

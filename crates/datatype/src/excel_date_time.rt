// A serial date or duration of a spreadsheet.
#[derive(Clone, Copy, PartialEq, Eq, Debug)]
pub enum ExcelDateTimeType {
    /// a point in time
    DateTime,
    /// a length of time
    TimeDelta,
}

#[derive(Clone, Copy, PartialEq, Eq, Debug)]
pub struct ExcelDateTime {
    /// the 64 bits of the serial, a binary64 float, so that cells are compared exactly
    pub bits: u64,
    pub datetime_type: ExcelDateTimeType,
    /// counted from 1904-01-01, and not from 1900; a flag, as calamine has it
    pub is_1904: bool,
}

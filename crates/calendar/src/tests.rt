use super::*;
use questions::fault::Fault;
use std::test::Fail;

const COMMON: [u16; 12] = [31, 28, 31, 30, 31, 30, 31, 31, 30, 31, 30, 31];

const LEAP: [u16; 12] = [31, 29, 31, 30, 31, 30, 31, 31, 30, 31, 30, 31];

/// Whether the system is the 1904 one, a year, the serial of its first day, and the lengths of its months.
const YEARS: [(bool, u16, f64, [u16; 12]); 12] = [
    (false, 1900, 1.0, LEAP),
    (false, 1901, 367.0, COMMON),
    (false, 1902, 732.0, COMMON),
    (false, 1903, 1097.0, COMMON),
    (false, 1904, 1462.0, LEAP),
    (false, 2000, 36526.0, LEAP),
    (false, 2100, 73051.0, COMMON),
    (false, 9999, 2958101.0, COMMON),
    (true, 1904, 0.0, LEAP),
    (true, 2000, 35064.0, LEAP),
    (true, 2100, 71589.0, COMMON),
    (true, 9999, 2956639.0, COMMON),
];

/// A serial, whether it is of the 1904 system, and year, month, day, hour, minute, second and millisecond.
type Case = (f64, bool, [u16; 7]);

const TIMES: [Case; 28] = [
    (0.0, false, [1899, 12, 31, 0, 0, 0, 0]),
    (-0.0, false, [1899, 12, 31, 0, 0, 0, 0]),
    (5e-324, false, [1899, 12, 31, 0, 0, 0, 0]),
    (0.5, false, [1899, 12, 31, 12, 0, 0, 0]),
    (1.0, false, [1900, 1, 1, 0, 0, 0, 0]),
    // 1,000 milliseconds carry to the second, 86,400 seconds to the next day, month and year.
    (0.5000115729166666, false, [1899, 12, 31, 12, 0, 1, 0]),
    (1.999999999, false, [1900, 1, 2, 0, 0, 0, 0]),
    (31.999999999, false, [1900, 2, 1, 0, 0, 0, 0]),
    (59.999999999, false, [1900, 2, 29, 0, 0, 0, 0]),
    (60.0, false, [1900, 2, 29, 0, 0, 0, 0]),
    (60.75, false, [1900, 2, 29, 18, 0, 0, 0]),
    (60.999999999, false, [1900, 3, 1, 0, 0, 0, 0]),
    (61.0, false, [1900, 3, 1, 0, 0, 0, 0]),
    (366.0, false, [1900, 12, 31, 0, 0, 0, 0]),
    (366.999999999, false, [1901, 1, 1, 0, 0, 0, 0]),
    (367.0, false, [1901, 1, 1, 0, 0, 0, 0]),
    (45943.541, false, [2025, 10, 13, 12, 59, 2, 400]),
    // 187.5 and 562.5 milliseconds: halves go up, also to an odd number.
    (0.00048828125, false, [1899, 12, 31, 0, 0, 42, 188]),
    (0.00146484375, false, [1899, 12, 31, 0, 2, 6, 563]),
    (2958465.0, false, [9999, 12, 31, 0, 0, 0, 0]),
    (2958465.99999999, false, [9999, 12, 31, 23, 59, 59, 999]),
    (0.0, true, [1904, 1, 1, 0, 0, 0, 0]),
    (-0.0, true, [1904, 1, 1, 0, 0, 0, 0]),
    (0.999999999, true, [1904, 1, 2, 0, 0, 0, 0]),
    (59.999999999, true, [1904, 3, 1, 0, 0, 0, 0]),
    (365.999999999, true, [1905, 1, 1, 0, 0, 0, 0]),
    (2957003.0, true, [9999, 12, 31, 0, 0, 0, 0]),
    (2957003.99999999, true, [9999, 12, 31, 23, 59, 59, 999]),
];

const OUTSIDE: [(f64, bool); 15] = [
    (-5e-324, false),
    (-0.25, false),
    (-1.0, false),
    // past the last day only by carrying
    (2958465.999999999, false),
    (2958466.0, false),
    (2958466.5, false),
    (1e300, false),
    (f64::INFINITY, false),
    (f64::NEG_INFINITY, false),
    (f64::NAN, false),
    (-0.25, true),
    (2957003.999999999, true),
    (2957004.0, true),
    (2958465.0, true),
    (f64::NAN, true),
];

fn fields(time: CivilTime) -> [u16; 7] {
    let date = time.date;
    [
        date.year,
        date.month as u16,
        date.day as u16,
        time.hour as u16,
        time.minute as u16,
        time.second as u16,
        time.milli,
    ]
}

#[test]
fn month_edges(rt: HostRuntime) -> Result<(), Fail> {
    for (is_1904, year, first_day, lengths) in &YEARS {
        let mut first = *first_day;
        for (index, length) in lengths.iter().enumerate() {
            let month = index as u16 + 1;
            let start = to_ymd_hms_milli(first, *is_1904)?;
            assert_eq!(rt; fields(start), [*year, month, 1, 0, 0, 0, 0]);
            first += f64::from(*length);
            let end = to_ymd_hms_milli(first - 1.0, *is_1904)?;
            assert_eq!(rt; fields(end), [*year, month, *length, 0, 0, 0, 0]);
        }
    }
    Ok(())
}

#[test]
fn times(rt: HostRuntime) -> Result<(), Fail> {
    for (serial, is_1904, expected) in &TIMES {
        let time = to_ymd_hms_milli(*serial, *is_1904)?;
        assert_eq!(rt; fields(time), *expected);
    }
    Ok(())
}

#[test]
fn outside(rt: HostRuntime) {
    for (serial, is_1904) in &OUTSIDE {
        assert_eq!(rt;
            to_ymd_hms_milli(*serial, *is_1904),
            Err(DateFault::OutsideCalendar)
        );
    }
    assert_eq!(rt; DateFault::OutsideCalendar.number(), 15);
}

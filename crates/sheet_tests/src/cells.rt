// Serials and errors of the typed cell.
use datatype::cell_error_type::CellErrorType;
use datatype::excel_date_time::{ExcelDateTime, ExcelDateTimeType};
use std::test::Fail;

#[test]
fn serials(rt: HostRuntime) -> Result<(), Fail> {
    let moment = ExcelDateTime::new(1.5, ExcelDateTimeType::DateTime, true);
    assert!(rt; moment.is_datetime() & !moment.is_duration() & moment.is_1904);
    assert!(rt; moment.as_f64() == 1.5);
    let span = ExcelDateTime::new(-0.0, ExcelDateTimeType::TimeDelta, false);
    assert!(rt; span.is_duration() & !span.is_datetime() & !span.is_1904);
    assert_eq!(rt; span.bits, 0x8000_0000_0000_0000);
    let not_a_number = ExcelDateTime {
        bits: 0x7ff0_0000_0000_0001,
        datetime_type: ExcelDateTimeType::DateTime,
        is_1904: false,
    };
    assert!(rt; not_a_number.as_f64() != not_a_number.as_f64());
    assert!(rt; not_a_number.to_ymd_hms_milli().is_err());
    // a duration is turned too; the system is the serial's own
    let day = ExcelDateTime::new(60.0, ExcelDateTimeType::TimeDelta, false).to_ymd_hms_milli()?;
    assert!(rt; (day.date.year == 1900) & (day.date.month == 2) & (day.date.day == 29));
    let later = moment.to_ymd_hms_milli()?;
    assert!(rt;
        (later.date.year == 1904)
            & (later.date.month == 1)
            & (later.date.day == 2)
            & (later.hour == 12)
    );
    Ok(())
}

#[test]
fn errors(rt: HostRuntime) -> Result<(), Fail> {
    let heap = rt.alloc();
    let all = [
        (CellErrorType::Div0, "#DIV/0!"),
        (CellErrorType::NA, "#N/A"),
        (CellErrorType::Name, "#NAME?"),
        (CellErrorType::Null, "#NULL!"),
        (CellErrorType::Num, "#NUM!"),
        (CellErrorType::Ref, "#REF!"),
        (CellErrorType::Value, "#VALUE!"),
        (CellErrorType::GettingData, "#DATA!"),
    ];
    for (error, text) in all {
        assert!(rt; error.to_string(heap)?.as_str() == text);
    }
    Ok(())
}

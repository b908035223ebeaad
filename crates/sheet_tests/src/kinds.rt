// Cells of both kinds: their header text, the numbers of their refusals, and those of a sheet that are not empty.
use calendar::civil::DateFault;
use cell::cell::Cell;
use cell::count::Count;
use cell::header::header_text;
use datatype::cell_error_type::CellErrorType;
use datatype::coercion_fault::CoercionFault;
use datatype::data::{Data, TextPart};
use datatype::excel_date_time::{ExcelDateTime, ExcelDateTimeType};
use decimal::fault::NumberFault;
use questions::fault::Fault;
use range::corners::Corners;
use range::sheet::Range;
use std::num::f64_to_bits_with_nan;
use std::test::Fail;

// the bytes of é are 195 and 169
const TEXT: &[u8] = b"RA \xc3\xa9";

/// The number of the refusal of a cell's header text; 0 if it has one, which compares with a bare number.
fn refused<C: Cell>(cell: &C) -> u8 {
    match header_text(cell, TEXT) {
        Ok(_) => 0,
        Err(fault) => fault.number(),
    }
}

/// Whether a cell's header text is these bytes.
fn reads<C: Cell>(cell: &C, bytes: &[u8]) -> bool {
    match header_text(cell, TEXT) {
        Ok(form) => form.as_bytes() == bytes,
        Err(_) => false,
    }
}

fn part(place: u32, len: u32) -> TextPart {
    TextPart { place, len }
}

#[test]
fn header_texts(rt: HostRuntime) {
    assert!(rt; reads(&Data::Int(-300), b"-300"));
    assert!(rt; reads(&Data::Float(f64_to_bits_with_nan(2.0)), b"2"));
    assert!(rt; reads(&Data::Float(f64_to_bits_with_nan(-0.0)), b"-0"));
    assert!(rt; reads(&Data::String(part(0, 2)), b"RA"));
    assert!(rt; reads(&Data::DateTimeIso(part(3, 2)), b"\xc3\xa9"));
    assert!(rt; reads(&Data::Bool(true), b"true"));
    assert!(rt; reads(&Data::Bool(false), b"false"));
    assert!(rt; reads(&Data::Empty, b""));
    assert!(rt; reads(&Count(12), b"12"));
    assert!(rt; reads(&Count(i32::MIN), b""));
}

#[test]
fn refusals(rt: HostRuntime) {
    let moment = ExcelDateTime::new(1.0, ExcelDateTimeType::DateTime, false);
    assert_eq!(rt; refused(&Data::Float(f64_to_bits_with_nan(0.5))), 8);
    assert_eq!(rt; refused(&Data::DateTime(moment)), 8);
    assert_eq!(rt; refused(&Data::Error(CellErrorType::NA)), 7);
    // half a character, and one byte past the end
    assert_eq!(rt; refused(&Data::String(part(3, 1))), 4);
    assert_eq!(rt; refused(&Data::DurationIso(part(0, 6))), 4);
    assert_eq!(rt; CoercionFault::from(NumberFault::NotANumber).number(), 13);
    assert_eq!(rt; CoercionFault::from(NumberFault::OutOfRange).number(), 14);
    assert_eq!(rt;
        CoercionFault::from(DateFault::OutsideCalendar).number(),
        15
    );
    assert_eq!(rt; CoercionFault::WrongKind.number(), 12);
}

#[test]
fn parts_of_a_text(rt: HostRuntime) {
    assert_eq!(rt; part(3, 2).bytes(TEXT), Some(b"\xc3\xa9".as_slice()));
    assert_eq!(rt; part(5, 0).bytes(TEXT), Some(b"".as_slice()));
    assert_eq!(rt; part(5, 1).bytes(TEXT), None);
    assert_eq!(rt; part(6, 0).bytes(TEXT), None);
    assert_eq!(rt; part(u32::MAX, u32::MAX).bytes(TEXT), None);
}

#[test]
fn used_cells(rt: HostRuntime) -> Result<(), Fail> {
    let corners = Corners {
        first_row: 7,
        first_column: 1,
        last_row: 8,
        last_column: 3,
    };
    let none = Count(i32::MIN);
    let cells = [none, Count(5), none, Count(0), none, Count(-1)];
    let mut range = Range::empty();
    range.make(corners, &cells, b"")?;
    let mut used = range.used_cells();
    assert_eq!(rt; used.next(), Some((0, 1, &Count(5))));
    assert_eq!(rt; used.next_back(), Some((1, 2, &Count(-1))));
    assert_eq!(rt; used.next(), Some((1, 0, &Count(0))));
    assert_eq!(rt; used.next(), None);
    assert_eq!(rt; used.next_back(), None);
    assert!(rt; Count(i32::MIN).is_empty(b""));
    assert!(rt; !Data::Int(0).is_empty(b""));
    Ok(())
}

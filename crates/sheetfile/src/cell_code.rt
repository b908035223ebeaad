// A cell in nine bytes: a kind, and eight bytes that its kind gives a meaning.
ghost use Rattle.std.specs.Prelude.{◌≡◌};
ghost use Rattle.sheetfile.specs.CellCode.{when_finite, error_cell, serial_cell, cell_of, decoded, empty_cell, bool_cell};

use crate::contents::Extent;
use datatype::cell_error_type::CellErrorType;
use datatype::data::{Data, TextPart};
use datatype::excel_date_time::{ExcelDateTime, ExcelDateTimeType};
use std::num::f64_from_bits_with_nan;

/// A cell whose number is a float: only a finite one.
fn when_finite(bits: u64, cell: Data) -> Option<Data>
    ensures { result ≡ when_finite bits cell }
{
    f64_from_bits_with_nan(bits).is_finite().then_some(cell)
}

fn serial_cell(bits: u64, datetime_type: ExcelDateTimeType, is_1904: bool) -> Option<Data>
    ensures { result ≡ serial_cell bits datetime_type is_1904 }
{
    let serial = ExcelDateTime {
        bits,
        datetime_type,
        is_1904,
    };
    when_finite(bits, Data::DateTime(serial))
}

// By hand: the library turns no number into a yes or a no.
fn bool_cell(number: u64) -> Option<Data>
    ensures { result ≡ bool_cell number }
{
    match number {
        0 => Some(Data::Bool(false)),
        1 => Some(Data::Bool(true)),
        _ => None,
    }
}

fn error_cell(number: u64) -> Option<Data>
    ensures { result ≡ error_cell number }
{
    CellErrorType::try_from(number).ok().map(Data::Error)
}

// The kinds stay numbers: each stands once, beside its cell, and an enum of them would be this table twice.
fn cell_of(kind: u8, number: u64, text: TextPart) -> Option<Data>
    ensures { result ≡ cell_of kind number text }
{
    match kind {
        0 => (number == 0).then_some(Data::Empty),
        1 => Some(Data::Int(number.cast_signed())),
        2 => when_finite(number, Data::Float(number)),
        3 => Some(Data::String(text)),
        4 => bool_cell(number),
        5 => serial_cell(number, ExcelDateTimeType::DateTime, false),
        6 => serial_cell(number, ExcelDateTimeType::DateTime, true),
        7 => serial_cell(number, ExcelDateTimeType::TimeDelta, false),
        8 => serial_cell(number, ExcelDateTimeType::TimeDelta, true),
        9 => Some(Data::DateTimeIso(text)),
        10 => Some(Data::DurationIso(text)),
        11 => error_cell(number),
        _ => None,
    }
}

/// The cell that nine bytes stand for, or none.
pub(crate) fn read_cell(bytes: &[u8; 9]) -> Option<Data>
    ensures { result ≡ decoded bytes.now }
{
    let content = bytes.last_chunk::<8>().unwrap();
    let Extent { place, len } = Extent::from(*content);
    cell_of(
        bytes[0],
        u64::from_le_bytes(*content),
        TextPart { place, len },
    )
}

// A cell as the program shows it: its kind and its value.
use datatype::cell_error_type::CellErrorType;
use datatype::data::{Data, TextPart};
use datatype::excel_date_time::ExcelDateTime;
use std::fmt;
use std::num::f64_from_bits_with_nan;

/// Bytes in quotes; what is not printable ASCII is escaped, and nothing is judged.
#[derive(Drop)]
pub(crate) struct Quoted<'a>(pub(crate) &'a [u8]);

fn write_byte<W: fmt::Write>(byte: u8, f: &mut fmt::Formatter<W>) -> fmt::Result {
    match byte {
        b'"' => f.write_str("\\\""),
        b'\\' => f.write_str("\\\\"),
        0x20..=0x7e => f.write_char(byte as char),
        _ => write!(f, "\\x{byte:02x}"),
    }
}

impl fmt::Display for Quoted<'_> {
    fn fmt<W: fmt::Write>(&self, f: &mut fmt::Formatter<W>) -> fmt::Result {
        f.write_str("\"")?;
        for byte in self.0 {
            write_byte(*byte, f)?;
        }
        f.write_str("\"")
    }
}

/// A cell of a sheet with the sheet's text.
#[derive(Drop)]
pub(crate) struct CellText<'a> {
    pub(crate) cell: Data,
    pub(crate) text: &'a [u8],
}

impl CellText<'_> {
    /// A text by its part of the sheet's text, or that it leaves it.
    fn write_part<W: fmt::Write>(&self, part: TextPart, f: &mut fmt::Formatter<W>) -> fmt::Result {
        let TextPart { place, len } = part;
        match part.bytes(self.text) {
            Some(bytes) => write!(f, "{}", Quoted(bytes)),
            None => write!(f, "leaves the text: place {place}, length {len}"),
        }
    }
}

fn write_serial<W: fmt::Write>(serial: ExcelDateTime, f: &mut fmt::Formatter<W>) -> fmt::Result {
    let kind = if serial.is_duration() {
        "span"
    } else {
        "moment"
    };
    let system = if serial.is_1904 { "1904" } else { "1900" };
    let value = serial.as_f64();
    write!(f, "{kind} {system} {value}")
}

impl fmt::Display for CellText<'_> {
    fn fmt<W: fmt::Write>(&self, f: &mut fmt::Formatter<W>) -> fmt::Result {
        match self.cell {
            Data::Int(number) => write!(f, "whole {number}"),
            Data::Float(bits) => {
                let value = f64_from_bits_with_nan(bits);
                write!(f, "float {value}")
            }
            Data::String(part) => {
                f.write_str("text ")?;
                self.write_part(part, f)
            }
            Data::Bool(true) => f.write_str("yes/no yes"),
            Data::Bool(false) => f.write_str("yes/no no"),
            Data::DateTime(serial) => write_serial(serial, f),
            Data::DateTimeIso(part) => {
                f.write_str("ISO date-time ")?;
                self.write_part(part, f)
            }
            Data::DurationIso(part) => {
                f.write_str("ISO duration ")?;
                self.write_part(part, f)
            }
            Data::Error(error) => write!(f, "error {error}"),
            Data::Empty => f.write_str("empty"),
        }
    }
}

// A cell's value, as a cell kind tells it over the sheet's text.
use crate::cell_error_type::CellErrorType;
use crate::excel_date_time::ExcelDateTime;

/// A part of the lent text: where it starts there, and its bytes. A header is kept by its place and length, since there is
/// no heap for a copy.
#[derive(Clone, Copy)]
pub struct TextValue<'a> {
    pub place: usize,
    pub bytes: &'a [u8],
}

#[derive(Clone, Copy)]
pub enum Value<'a> {
    Int(i64),
    Float(f64),
    String(TextValue<'a>),
    Bool(bool),
    DateTime(ExcelDateTime),
    DateTimeIso(TextValue<'a>),
    DurationIso(TextValue<'a>),
    Error(CellErrorType),
    Empty,
    /// a text part that leaves the sheet's text or is not UTF-8; a meaning like the others, of which each call says what it
    /// gives for it
    Unsound,
}

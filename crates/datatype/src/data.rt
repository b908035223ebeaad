// The typed cell.
ghost use Rattle.std.specs.Prelude.{◌≡◌};
ghost use Rattle.std.specs.Option.{option_map};
ghost use Rattle.datatype.specs.Parts.{part_bytes};

use crate::cell_error_type::CellErrorType;
use crate::excel_date_time::ExcelDateTime;

/// A part of the sheet's text: its place, and how many bytes it has. A cell has a fixed size and no lifetime, and a
/// device has no heap for texts of their own.
#[derive(Clone, Copy, PartialEq, Eq, Debug)]
pub struct TextPart {
    pub place: u32,
    pub len: u32,
}

impl TextPart {
    /// The bytes of the part; none where it leaves the text by the true sum.
    pub fn bytes<'a>(&self, text: &'a [u8]) -> Option<&'a [u8]>
        ensures { option_map (λ bytes. bytes.now) result ≡ part_bytes self.now.place self.now.len text.now }
    {
        let place = self.place as usize;
        text.get(place..place + self.len as usize)
    }
}

#[derive(Clone, Copy, PartialEq, Eq, Debug)]
pub enum Data {
    Int(i64),
    /// the 64 bits of a binary64 float, so that cells are compared exactly
    Float(u64),
    String(TextPart),
    Bool(bool),
    DateTime(ExcelDateTime),
    DateTimeIso(TextPart),
    DurationIso(TextPart),
    Error(CellErrorType),
    Empty,
}

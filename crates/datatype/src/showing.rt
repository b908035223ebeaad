// The errors as a spreadsheet writes them.
ghost use Rattle.std.specs.Prelude.{Some};
ghost use Rattle.datatype.specs.Errors.{error_text};

use crate::cell_error_type::CellErrorType;
use std::fmt;

// Written out: a derived `Display` states no text.
impl fmt::Display for CellErrorType {
    ghost output = { λ e. Some (error_text e) };

    fn fmt<W: fmt::Write>(&self, f: &mut fmt::Formatter<W>) -> fmt::Result {
        f.write_str(match self {
            CellErrorType::Div0 => "#DIV/0!",
            CellErrorType::NA => "#N/A",
            CellErrorType::Name => "#NAME?",
            CellErrorType::Null => "#NULL!",
            CellErrorType::Num => "#NUM!",
            CellErrorType::Ref => "#REF!",
            CellErrorType::Value => "#VALUE!",
            CellErrorType::GettingData => "#DATA!",
        })
    }
}

// Why a value is not what a target wants.
use crate::cell_error_type::CellErrorType;

#[derive(Clone, Copy, PartialEq, Eq, Debug)]
pub enum CoercionFault {
    /// the cell holds this error: 7
    CellError(CellErrorType),
    /// the value has no text form: 8
    NoTextForm,
    /// the target has no rule for this kind of value: 12
    WrongKind,
    /// the text is none of those that the target reads: 13
    Unreadable,
    /// number text beyond what one rounding of exact numbers reads: 14
    OutOfRange,
    /// a serial outside its calendar: 15
    OutsideCalendar,
}

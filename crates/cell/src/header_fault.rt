// Why a cell has no header text.
use datatype::coercion_fault::CoercionFault;

#[derive(Clone, Copy, PartialEq, Eq, Debug)]
pub enum HeaderFault {
    /// the cell's text part leaves the sheet's text or is not UTF-8: 4
    Unsound,
    /// the cell's value has no text form, for this reason: 7 or 8
    Refused(CoercionFault),
}

// The text form of a value: text as it lies in the sheet's text, anything else printed.
use crate::value::TextValue;
use number::printed::Printed;

#[derive(Clone, Copy)]
pub enum TextForm<'a> {
    /// a part of the lent text
    Lent(TextValue<'a>),
    /// printed, at most 20 bytes by value
    Printed(Printed),
}

// Values turned into their text form.
ghost use Rattle.std.specs.Prelude.{◌≡◌, IfOk};
ghost use Rattle.questions.specs.Questions.{answered};
ghost use Rattle.datatype.specs.Values.{shown, place_of_text};
ghost use Rattle.datatype.specs.Faults.{told};
ghost use Rattle.datatype.specs.TextForms.{text_form};
ghost use Rattle.datatype.specs.Forms.{form_bytes, form_place};

use crate::coercion_fault::CoercionFault;
use crate::text_form::TextForm;
use crate::value::Value;
use number::print::{print_bool, print_float, print_whole};
use number::printed::Printed;

impl<'a> TextForm<'a> {
    /// The bytes of the text form.
    pub fn as_bytes(&self) -> &[u8]
        ensures { result.now ≡ form_bytes self.now }
    {
        match self {
            TextForm::Lent(text) => text.bytes,
            TextForm::Printed(printed) => printed.as_bytes(),
        }
    }
}

/// The text form of a value: text and ISO texts as they lie in the sheet's text, anything else
/// printed. Floats that are not whole and below 2^53 in size, moments and spans have none.
pub fn text_form(value: Value<'_>) -> Result<TextForm<'_>, CoercionFault>
    ensures form { answered form_bytes told result ≡ text_form (shown value.entry) }
    ensures place { IfOk result (λ form. form_place form ≡ place_of_text value.entry) }
{
    let printed = match value {
        Value::String(text) | Value::DateTimeIso(text) | Value::DurationIso(text) => {
            return Ok(TextForm::Lent(text));
        }
        Value::Int(whole) => print_whole(whole),
        Value::Float(float) => print_float(float).ok_or(CoercionFault::NoTextForm)?,
        Value::Bool(yes) => print_bool(yes),
        Value::Empty => Printed::empty(),
        Value::DateTime(_) => return Err(CoercionFault::NoTextForm),
        Value::Error(error) => return Err(CoercionFault::CellError(error)),
        Value::Unsound => return Err(CoercionFault::WrongKind),
    };
    Ok(TextForm::Printed(printed))
}

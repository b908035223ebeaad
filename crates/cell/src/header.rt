// The header text of a cell: what opening a sheet is to ask of its cells, and nothing else.
ghost use Rattle.std.specs.Prelude.{◌≡◌, IfOk};
ghost use Rattle.questions.specs.Questions.{answered};
ghost use Rattle.datatype.specs.Faults.{told as coercion_told};
ghost use Rattle.datatype.specs.Forms.{form_bytes};
ghost use Rattle.cell.specs.declared.header_fault.HeaderFault.TheVariants.{Refused};
ghost use Rattle.cell.specs.Headers.{told, header_text};
ghost use Rattle.cell.specs.Soundness.{FormLies};

use crate::cell::Cell;
use crate::header_fault::HeaderFault;
use datatype::coercion_fault::CoercionFault;
use datatype::forming::text_form;
use datatype::text_form::TextForm;
use datatype::value::Value;
use questions::fault::Fault;

impl Fault for HeaderFault {
    ghost told = { told };

    fn number(&self) -> u8 {
        match *self {
            HeaderFault::Unsound => 4,
            HeaderFault::Refused(fault) => fault.number(),
        }
    }
}

// Written out: a derived `From` has no contract, and clauses name the fault that `?` makes.
impl From<CoercionFault> for HeaderFault {
    ghost from_gives = { λ refused fault. fault ≡ Refused refused };

    fn from(fault: CoercionFault) -> HeaderFault {
        HeaderFault::Refused(fault)
    }
}

/// The text of a header cell: 4 for an unsound cell, and else its value's text form. A text is a part
/// of the sheet's text, anything else is printed.
pub fn header_text<'a, C: Cell>(cell: &C, text: &'a [u8]) -> Result<TextForm<'a>, HeaderFault>
    ensures form { answered form_bytes told result ≡ header_text (C.Cell.meaning cell.now text.now) }
    ensures lies { IfOk result (FormLies text.now) }
{
    match cell.value(text) {
        Value::Unsound => Err(HeaderFault::Unsound),
        value => Ok(text_form(value)?),
    }
}

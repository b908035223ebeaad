// Why a text is not read as a float.
ghost use Rattle.decimal.specs.Fault.{told};

use questions::fault::Fault;

#[derive(Clone, Copy, PartialEq, Eq, Debug)]
pub enum NumberFault {
    /// The text is no number text. Number 13.
    NotANumber,
    /// The number lies beyond what one rounding of exact numbers reads. Number 14.
    OutOfRange,
}

impl Fault for NumberFault {
    ghost told = { told };

    fn number(&self) -> u8 {
        match *self {
            NumberFault::NotANumber => 13,
            NumberFault::OutOfRange => 14,
        }
    }
}

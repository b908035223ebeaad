// What the refusals of a coercion tell, and refusals of number text and of dates as such.
ghost use Rattle.std.specs.Prelude.{◌≡◌};
ghost use Rattle.calendar.specs.Serial.{told as date_told};
ghost use Rattle.decimal.specs.Fault.{told as number_told};
ghost use Rattle.datatype.specs.Faults.{told};

use crate::coercion_fault::CoercionFault;
use calendar::civil::DateFault;
use decimal::fault::NumberFault;
use questions::fault::Fault;

impl Fault for CoercionFault {
    ghost told = { told };

    fn number(&self) -> u8 {
        match *self {
            CoercionFault::CellError(_) => 7,
            CoercionFault::NoTextForm => 8,
            CoercionFault::WrongKind => 12,
            CoercionFault::Unreadable => 13,
            CoercionFault::OutOfRange => 14,
            CoercionFault::OutsideCalendar => 15,
        }
    }
}

// Written out: a derived `From` has no contract, and clauses name the fault that `?` makes.
impl From<NumberFault> for CoercionFault {
    ghost from_gives = { λ number fault. told fault ≡ number_told number };

    fn from(fault: NumberFault) -> CoercionFault {
        match fault {
            NumberFault::NotANumber => CoercionFault::Unreadable,
            NumberFault::OutOfRange => CoercionFault::OutOfRange,
        }
    }
}

// Written out, for the same reason.
impl From<DateFault> for CoercionFault {
    ghost from_gives = { λ date fault. told fault ≡ date_told date };

    fn from(fault: DateFault) -> CoercionFault {
        match fault {
            DateFault::OutsideCalendar => CoercionFault::OutsideCalendar,
        }
    }
}

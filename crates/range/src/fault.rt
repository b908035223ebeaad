// Why a sheet is not made, or a part of one not copied.
ghost use Rattle.range.specs.Making.{told};

use questions::fault::Fault;

#[derive(Clone, Copy, PartialEq, Eq, Debug)]
pub enum RangeFault {
    /// a first row or first column past its last: 1
    Reversed,
    /// a last row or last column past the limits of a sheet: 2
    PastLimits,
    /// not exactly rows times columns cells: 3
    CellCount,
    /// the caller's store has fewer entries than the part has cells: 20
    StoreShort,
}

impl Fault for RangeFault {
    ghost told = { told };

    fn number(&self) -> u8 {
        match *self {
            RangeFault::Reversed => 1,
            RangeFault::PastLimits => 2,
            RangeFault::CellCount => 3,
            RangeFault::StoreShort => 20,
        }
    }
}

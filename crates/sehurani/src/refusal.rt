// A refusal as the program prints it: number, words and place.
use questions::fault::Fault;
use range::fault::RangeFault;
use sheetfile::fault::FileFault;
use std::fmt;

#[derive(Drop)]
pub(crate) struct Refusal(pub(crate) FileFault);

// The program's own words, and so not the faults' `Display`.
fn words(fault: FileFault) -> &'static str {
    match fault {
        FileFault::Contents => "the table of contents is not lawful",
        FileFault::Sheet(RangeFault::Reversed) => "a first row or column is past its last",
        FileFault::Sheet(RangeFault::PastLimits) =>
            "a last row or column is past the limits of a sheet",
        FileFault::Sheet(RangeFault::CellCount) =>
            "the cells are not nine bytes each for every row and column",
        FileFault::Sheet(RangeFault::StoreShort) => "the cell store is too small",
        FileFault::Cell(_) => "a cell is of no listed kind or content",
    }
}

impl fmt::Display for Refusal {
    fn fmt<W: fmt::Write>(&self, f: &mut fmt::Formatter<W>) -> fmt::Result {
        let number = self.0.number();
        let words = words(self.0);
        write!(f, "refused: {number}, {words}")?;
        if let FileFault::Cell(index) = self.0 {
            write!(f, ", at cell {index}")?;
        }
        Ok(())
    }
}

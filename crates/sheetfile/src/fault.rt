// Why a sheet file is not read.
ghost use Rattle.std.specs.Prelude.{◌≡◌};
ghost use Rattle.sheetfile.specs.Files.{told};
ghost use Rattle.sheetfile.specs.declared.fault.FileFault.TheVariants.{Sheet};

use questions::fault::Fault;
use range::fault::RangeFault;

#[derive(Clone, Copy, PartialEq, Eq, Debug)]
pub enum FileFault {
    /// the table of contents is not lawful: 18
    Contents,
    /// the shape, the number of cells or the store: 1, 2, 3 or 20
    Sheet(RangeFault),
    /// a cell of no listed kind or content, by its index in the order of the file: 19
    Cell(usize),
}

impl Fault for FileFault {
    ghost told = { told };

    fn number(&self) -> u8 {
        match *self {
            FileFault::Contents => 18,
            FileFault::Sheet(fault) => fault.number(),
            FileFault::Cell(_) => 19,
        }
    }
}

// Written out: a derived `From` has no contract, and clauses name the fault that `?` makes.
impl From<RangeFault> for FileFault {
    ghost from_gives = { λ f r. r ≡ Sheet f };

    fn from(fault: RangeFault) -> FileFault {
        FileFault::Sheet(fault)
    }
}

// A sheet cell after cell, without the empty ones, from the front or from the back.
ghost use Rattle.std.specs.Prelude.{◌≡◌, length};
ghost use Rattle.std.specs.Iterator.{YieldsFirstBy, YieldsLastBy, at_most};
ghost use Rattle.std.specs.Iterator.Adapters.{enumerate_source};
ghost use Rattle.std.specs.Slice.Iter.{iter_rest};
ghost use Rattle.range.specs.Sheets.{sheet};
ghost use Rattle.range.specs.Walks.{cells_of_sheet, cell_shown};
ghost use Rattle.range.specs.Used.{used_only, empty_over, used_left};

use crate::sheet::Range;
use crate::used_cells::UsedCells;
use cell::cell::Cell;

impl<'a, T: Cell> Range<'a, T> {
    /// Every cell that is not empty over the sheet's text, with its row and column, counted from the
    /// sheet's first, row after row.
    pub fn used_cells(&self) -> UsedCells<'a, T>
        ensures { used_left T.Cell.meaning result ≡ used_only (empty_over T.Cell.meaning (sheet self.now).text) (cells_of_sheet (sheet self.now)) }
    {
        UsedCells {
            cells: self.cells(),
            text: self.text,
        }
    }
}

impl<'a, T: Cell> Iterator for UsedCells<'a, T> {
    type Item = (usize, usize, &'a T);

    ghost next_gives = { YieldsFirstBy cell_shown (used_left T.Cell.meaning) };

    // All cells that are left, empty or not: how many are used, only a walk over them tells.
    ghost remaining = { λ walk. at_most (length (iter_rest (enumerate_source walk.cells.cells))) };

    fn next(&mut self) -> Option<(usize, usize, &'a T)> {
        let text = self.text;
        self.cells.find(|(_, _, cell)| !cell.is_empty(text))
    }
}

// `next_back` belongs to another trait than `next`, so each is written out.
impl<'a, T: Cell> DoubleEndedIterator for UsedCells<'a, T> {
    ghost next_back_gives = { YieldsLastBy cell_shown (used_left T.Cell.meaning) };

    fn next_back(&mut self) -> Option<(usize, usize, &'a T)> {
        let text = self.text;
        self.cells.rfind(|(_, _, cell)| !cell.is_empty(text))
    }
}

// A sheet row after row, or cell after cell, from the front or from the back.
ghost use Rattle.std.specs.Prelude.{◌≡◌, ℕ, ◌*◌, length, Some};
ghost use Rattle.std.specs.Iterator.{YieldsFirstBy, YieldsFirstRef, YieldsLastBy, YieldsLastRef, IsFinite, at_most, size};
ghost use Rattle.std.specs.Iterator.Adapters.{enumerate_source};
ghost use Rattle.std.specs.List.{slice_get};
ghost use Rattle.std.specs.Slice.Iter.{iter_rest};
ghost use Rattle.range.specs.Sheets.{sheet, height, width, row_at, cell_at};
ghost use Rattle.range.specs.Walks.{rows_left, rows_of_sheet, cells_left, cells_of_sheet, cell_shown};

use crate::cells::Cells;
use crate::rows::Rows;
use crate::sheet::Range;

impl<'a, T> Range<'a, T> {
    /// Every row, from the first to the last.
    pub fn rows(&self) -> Rows<'a, T>
        ensures all { rows_left result ≡ rows_of_sheet (sheet self.now) }
        ensures rows { (k : ℕ) → slice_get (rows_left result) k ≡ row_at (sheet self.now) k }
    {
        let (left, width) = self.get_size();
        Rows {
            cells: self.cells,
            width,
            left,
        }
    }

    /// Every cell with its row and column, counted from the sheet's first, row after row.
    pub fn cells(&self) -> Cells<'a, T>
        ensures all { cells_left result ≡ cells_of_sheet (sheet self.now) }
        ensures count { length (cells_left result) ≡ height (sheet self.now) * width (sheet self.now) }
        ensures places { (k row column : ℕ) (c : T) → slice_get (cells_left result) k ≡ Some (row, column, c) → cell_at (sheet self.now) row column ≡ Some c }
    {
        Cells {
            cells: self.cells.iter().enumerate(),
            width: self.width(),
        }
    }
}

impl<'a, T> Iterator for Rows<'a, T> {
    type Item = &'a [T];

    ghost next_gives = { YieldsFirstRef rows_left };

    // A number that the walk has, and no length of a list of items: so a caller's `count` is seen to fit.
    ghost remaining = { λ rows. at_most rows.left };

    fn next(&mut self) -> Option<&'a [T]> {
        if self.left == 0 {
            return None;
        }
        let (row, rest) = self.cells.split_at(self.width);
        *self = Rows {
            cells: rest,
            width: self.width,
            left: self.left - 1,
        };
        Some(row)
    }
}

// `next_back` belongs to another trait than `next`, so each is written out.
impl<'a, T> DoubleEndedIterator for Rows<'a, T> {
    ghost next_back_gives = { YieldsLastRef rows_left };

    fn next_back(&mut self) -> Option<&'a [T]> {
        if self.left == 0 {
            return None;
        }
        let before = self.cells.len() - self.width;
        let (rest, row) = self.cells.split_at(before);
        *self = Rows {
            cells: rest,
            width: self.width,
            left: self.left - 1,
        };
        Some(row)
    }
}

impl<'a, T> ExactSizeIterator for Rows<'a, T> {
    #[tactic(auto, using(crate::proofs::Taking::count_cut))]
    fn len(&self) -> usize
        ensures finite { IsFinite (at_most self.now.left) }
        ensures value { result ≡ size (at_most self.now.left) }
        ensures counts { result ≡ length (rows_left self.now) }
    {
        self.left
    }
}

impl<'a, T> Iterator for Cells<'a, T> {
    type Item = (usize, usize, &'a T);

    ghost next_gives = { YieldsFirstBy cell_shown cells_left };

    // The cells themselves, and not the list of items, as for rows.
    ghost remaining = { λ walk. at_most (length (iter_rest (enumerate_source walk.cells))) };

    fn next(&mut self) -> Option<(usize, usize, &'a T)> {
        let (place, front) = self.cells.next()?;
        Some((place / self.width, place % self.width, front))
    }
}

// `next_back` belongs to another trait than `next`, so each is written out.
impl<'a, T> DoubleEndedIterator for Cells<'a, T> {
    ghost next_back_gives = { YieldsLastBy cell_shown cells_left };

    fn next_back(&mut self) -> Option<(usize, usize, &'a T)> {
        let (place, back) = self.cells.next_back()?;
        Some((place / self.width, place % self.width, back))
    }
}

impl<'a, T> ExactSizeIterator for Cells<'a, T> {
    #[tactic(auto, using(crate::proofs::WalkLaws::length_numbered))]
    fn len(&self) -> usize
        ensures finite { IsFinite (at_most (length (iter_rest (enumerate_source self.now.cells)))) }
        ensures value { result ≡ size (at_most (length (iter_rest (enumerate_source self.now.cells)))) }
        ensures counts { result ≡ length (cells_left self.now) }
    {
        self.cells.len()
    }
}

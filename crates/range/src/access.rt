// Cells and rows by their number.
ghost use Rattle.std.specs.Prelude.{◌≡◌};
ghost use Rattle.std.specs.Option.{option_map};
ghost use Rattle.range.specs.Sheets.{sheet, cell_at, value_at, row_at};

use crate::sheet::Range;

impl<'a, T> Range<'a, T> {
    /// The cell of a row and a column, both counted from the sheet's first; none outside the sheet.
    pub fn get(&self, relative_position: (usize, usize)) -> Option<&'a T>
        ensures { option_map (λ x. x.now) result ≡ cell_at (sheet self.now) relative_position.0 relative_position.1 }
    {
        let (row, column) = relative_position;
        self.row(row)?.get(column)
    }

    /// The cell of a row and a column by the sheet's own numbers, counted from row 0 and column 0; none outside the sheet.
    pub fn get_value(&self, absolute_position: (u32, u32)) -> Option<&'a T>
        ensures { option_map (λ x. x.now) result ≡ value_at (sheet self.now) absolute_position.0 absolute_position.1 }
    {
        let (first_row, first_column) = self.start()?;
        let row = absolute_position.0.checked_sub(first_row)?;
        let column = absolute_position.1.checked_sub(first_column)?;
        self.get((row as usize, column as usize))
    }

    /// A whole row, counted from the sheet's first; none past the last.
    pub fn row(&self, index: usize) -> Option<&'a [T]>
        ensures { option_map (λ x. x.now) result ≡ row_at (sheet self.now) index }
    {
        // By its place: the `nth` of a walk would go over the rows before it.
        let (height, width) = self.get_size();
        if index >= height {
            return None;
        }
        let from = index * width;
        Some(&self.cells[from..from + width])
    }
}

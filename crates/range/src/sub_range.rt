// A part of a sheet, or a larger sheet around it, copied into the caller's store: a device has no heap.
ghost use Rattle.std.specs.Prelude.{◌≡◌, ◌*◌, ◌<◌, ◌≤◌, true, false, ◌++◌, length, drop, is_ok, IfOk};
ghost use Rattle.questions.specs.Questions.{refusal_of};
ghost use Rattle.range.specs.Shapes.{rows_of, columns_of};
ghost use Rattle.range.specs.Making.{told, copying};
ghost use Rattle.range.specs.Sheets.{sheet, part_cell, part_cells};

use crate::area::Area;
use crate::corners::Corners;
use crate::fault::RangeFault;
use crate::sheet::Range;

impl<'a, T: Copy> Range<'a, T> {
    /// The cell that stands at a place of the part, row after row.
    fn cell_or(&self, part: Area, empty: T, place: usize) -> T
        requires { place < rows_of part.corners * columns_of part.corners }
        ensures { result ≡ part_cell (sheet self.now) part.corners empty place }
    {
        // rows and columns fit: a `try_from` would add a refusal that never comes
        let row = part.corners.first_row + (place / part.width()) as u32;
        let column = part.corners.first_column + (place % part.width()) as u32;
        self.get_value((row, column)).copied().unwrap_or(empty)
    }

    /// Each cell of the part to its place in the front of the store.
    fn copy_cells(&self, part: Area, empty: T, store: &mut [T])
        requires { rows_of part.corners * columns_of part.corners ≤ length store.old }
        ensures { store.new ≡ part_cells (sheet self.now) part.corners empty ++ drop (rows_of part.corners * columns_of part.corners) store.old }
    {
        for (place, entry) in store[..part.cell_count()].iter_mut().enumerate() {
            *entry = self.cell_or(part, empty, place);
        }
    }

    /// The part between corners of its own, row after row in the front of the store; tells how many cells it has.
    /// Where the part leaves the sheet it has the empty cell that the caller gives.
    pub fn range_into(
        &self,
        corners: Corners,
        empty: T,
        store: &mut [T],
    ) -> Result<usize, RangeFault>
        ensures answers { refusal_of told result ≡ copying corners (length store.old) }
        ensures count { IfOk result (λ n. n ≡ rows_of corners * columns_of corners) }
        ensures copied { is_ok result ≡ true → store.new ≡ part_cells (sheet self.now) corners empty ++ drop (rows_of corners * columns_of corners) store.old }
        ensures kept { is_ok result ≡ false → store.new ≡ store.old }
    {
        let part = Area::new(corners)?;
        if store.len() < part.cell_count() {
            return Err(RangeFault::StoreShort);
        }
        self.copy_cells(part, empty, store);
        Ok(part.cell_count())
    }
}

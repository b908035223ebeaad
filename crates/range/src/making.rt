// Making a sheet from its parts.
ghost use Rattle.std.specs.Prelude.{◌≡◌, ◌*◌, ◌^◌, ◌≤◌, true, false, [], length, is_ok, IfOk, Ok};
ghost use Rattle.questions.specs.Questions.{refusal_of, first_no};
ghost use Rattle.range.specs.Shapes.{Lawful, rows_of, columns_of};
ghost use Rattle.range.specs.Making.{told, making, corner_questions};
ghost use Rattle.range.specs.Sheets.{sheet, made_of, empty_sheet};

use crate::area::Area;
use crate::corners::Corners;
use crate::fault::RangeFault;
use crate::sheet::Range;

impl Corners {
    /// How many cells a sheet of these corners has: rows times columns, the true product, at most 2^34.
    pub fn cell_count(&self) -> Result<usize, RangeFault>
        ensures answers { refusal_of told result ≡ first_no (corner_questions self.now []) }
        ensures count { IfOk result (λ n. n ≡ rows_of self.now * columns_of self.now) }
        ensures bound { IfOk result (λ n. n ≤ 2 ^ 34) }
    {
        Ok(Area::new(*self)?.cell_count())
    }
}

impl<'a, T> Range<'a, T> {
    /// The sheet without rows, columns or text.
    pub fn empty() -> Range<'a, T>
        ensures { sheet result ≡ empty_sheet }
    {
        Range {
            area: None,
            cells: &[],
            text: &[],
        }
    }

    /// The sheet of these corners, cells and text.
    pub fn from_parts(
        corners: Corners,
        cells: &'a [T],
        text: &'a [u8],
    ) -> Result<Range<'a, T>, RangeFault>
        ensures answers { refusal_of told result ≡ making corners (length cells.now) }
        ensures made { IfOk result (λ range. sheet range ≡ made_of corners cells.now text.now) }
        ensures lawful { (Lawful corners (length cells.now) → is_ok result ≡ true) × (is_ok result ≡ true → Lawful corners (length cells.now)) }
    {
        let area = Area::new(corners)?;
        if cells.len() != area.cell_count() {
            return Err(RangeFault::CellCount);
        }
        Ok(Range {
            area: Some(area),
            cells,
            text,
        })
    }

    /// Makes this the sheet of these corners, cells and text, for who keeps an old sheet: a refusal leaves it as it was.
    pub fn make(
        &mut self,
        corners: Corners,
        cells: &'a [T],
        text: &'a [u8],
    ) -> Result<(), RangeFault>
        ensures answers { refusal_of told result ≡ making corners (length cells.now) }
        ensures made { result ≡ Ok tt → sheet self.new ≡ made_of corners cells.now text.now }
        ensures kept { is_ok result ≡ false → self.new ≡ self.old }
        ensures lawful { (Lawful corners (length cells.now) → result ≡ Ok tt) × (result ≡ Ok tt → Lawful corners (length cells.now)) }
    {
        *self = Range::from_parts(corners, cells, text)?;
        Ok(())
    }
}

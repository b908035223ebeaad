// Corners that a sheet may have.
ghost use Rattle.std.specs.Prelude.{◌≡◌, ◌*◌, ◌^◌, ◌≤◌, true, [], IfOk};
ghost use Rattle.questions.specs.Questions.{refusal_of, first_no};
ghost use Rattle.range.specs.Shapes.{ordered, limited, rows_of, columns_of};
ghost use Rattle.range.specs.Making.{told, corner_questions};

use crate::corners::Corners;
use crate::fault::RangeFault;

/// The last row and the last column that a spreadsheet has.
const LAST_ROW: u32 = 1_048_575;

const LAST_COLUMN: u32 = 16_383;

/// Corners of which no axis runs backwards, and which end within the limits of a sheet.
#[derive(Clone, Copy)]
pub(crate) struct Area {
    pub(crate) corners: Corners,
    ghost ordered: { ordered corners ≡ true },
    ghost limited: { limited corners ≡ true },
}

impl Area {
    /// Puts the two questions that corners alone can answer.
    pub(crate) fn new(corners: Corners) -> Result<Area, RangeFault>
        ensures answers { refusal_of told result ≡ first_no (corner_questions corners []) }
        ensures is { IfOk result (λ area. area.corners ≡ corners) }
    {
        if corners.first_row > corners.last_row || corners.first_column > corners.last_column {
            return Err(RangeFault::Reversed);
        }
        if corners.last_row > LAST_ROW || corners.last_column > LAST_COLUMN {
            return Err(RangeFault::PastLimits);
        }
        Ok(Area { corners })
    }

    /// How many rows there are.
    pub(crate) fn height(self) -> usize
        ensures { result ≡ rows_of self.corners }
    {
        (self.corners.last_row - self.corners.first_row) as usize + 1
    }

    /// How many columns there are.
    pub(crate) fn width(self) -> usize
        ensures { result ≡ columns_of self.corners }
    {
        (self.corners.last_column - self.corners.first_column) as usize + 1
    }

    /// Rows times columns, the true product.
    pub(crate) fn cell_count(self) -> usize
        ensures is { result ≡ rows_of self.corners * columns_of self.corners }
        ensures bound { result ≤ 2 ^ 34 }
    {
        self.height() * self.width()
    }
}

// The place and the size of a sheet.
ghost use Rattle.std.specs.Prelude.{◌≡◌};
ghost use Rattle.range.specs.Sheets.{sheet, start_of, end_of, height, width, is_empty};

use crate::area::Area;
use crate::sheet::Range;

impl<'a, T> Range<'a, T> {
    /// The first row and column; none for the empty sheet.
    pub fn start(&self) -> Option<(u32, u32)>
        ensures { result ≡ start_of (sheet self.now) }
    {
        self.area
            .map(|area| (area.corners.first_row, area.corners.first_column))
    }

    /// The last row and column; none for the empty sheet.
    pub fn end(&self) -> Option<(u32, u32)>
        ensures { result ≡ end_of (sheet self.now) }
    {
        self.area
            .map(|area| (area.corners.last_row, area.corners.last_column))
    }

    /// How many columns there are.
    pub fn width(&self) -> usize
        ensures { result ≡ width (sheet self.now) }
    {
        self.area.map_or(0, Area::width)
    }

    /// How many rows there are.
    pub fn height(&self) -> usize
        ensures { result ≡ height (sheet self.now) }
    {
        self.area.map_or(0, Area::height)
    }

    /// Rows and columns.
    pub fn get_size(&self) -> (usize, usize)
        ensures { result ≡ (height (sheet self.now), width (sheet self.now)) }
    {
        (self.height(), self.width())
    }

    /// Whether the sheet has no cells.
    pub fn is_empty(&self) -> bool
        ensures { result ≡ is_empty (sheet self.now) }
    {
        self.area.is_none()
    }

    /// The text that cells refer to.
    pub fn text(&self) -> &'a [u8]
        ensures { result.now ≡ (sheet self.now).text }
    {
        self.text
    }
}

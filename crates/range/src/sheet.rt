// A sheet over lent cells and lent text. Its invariant: it is empty, or it has lawful corners and exactly their cells.
ghost use Rattle.std.specs.Prelude.{◌≡◌, true, length};
ghost use Rattle.range.specs.Shapes.{shaped};
ghost use Rattle.range.specs.Areas.{corners_of};

use crate::area::Area;

#[derive(Drop)]
pub struct Range<'a, T> {
    /// none: the empty sheet
    pub(crate) area: Option<Area>,
    /// row after row
    pub(crate) cells: &'a [T],
    pub(crate) text: &'a [u8],
    ghost lawful: { shaped (corners_of area) (length cells.now) ≡ true },
}

// What is known of a sheet before its cells are read.
ghost use Rattle.std.specs.Prelude.{length};
ghost use Rattle.range.specs.Shapes.{Lawful};

use range::corners::Corners;

/// The parts of a sheet that is not empty.
#[derive(Clone, Copy)]
pub(crate) struct Layout<'a> {
    pub(crate) corners: Corners,
    /// row after row, nine bytes each
    pub(crate) cells: &'a [[u8; 9]],
    pub(crate) text: &'a [u8],
    ghost lawful: { Lawful corners (length cells.now) },
}

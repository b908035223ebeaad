// The cells of a sheet that are not empty, and still to be taken.
use crate::cells::Cells;

#[derive(Drop)]
pub struct UsedCells<'a, T> {
    pub(crate) cells: Cells<'a, T>,
    /// the sheet's text, over which a cell is empty or not
    pub(crate) text: &'a [u8],
}

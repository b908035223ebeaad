// The cells of a sheet that are still to be taken.
ghost use Rattle.std.specs.Prelude.{◌+◌, ◌^◌, ◌<◌, length};
ghost use Rattle.std.specs.Iterator.Adapters.{enumerate_count, enumerate_source};
ghost use Rattle.std.specs.Slice.Iter.{iter_rest};

use std::iter::Enumerate;
use std::slice::Iter;

#[derive(Drop)]
pub struct Cells<'a, T> {
    /// each with its place in the sheet, row after row
    pub(crate) cells: Enumerate<Iter<'a, T>>,
    pub(crate) width: usize,
    ghost wide: { 0 < length (iter_rest (enumerate_source cells)) → 0 < width },
    ghost within: { enumerate_count cells + length (iter_rest (enumerate_source cells)) < 2 ^ 64 },
}

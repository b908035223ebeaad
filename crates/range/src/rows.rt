// The rows of a sheet that are still to be taken.
ghost use Rattle.std.specs.Prelude.{◌≡◌, ◌*◌, length};

#[derive(Drop)]
pub struct Rows<'a, T> {
    /// row after row
    pub(crate) cells: &'a [T],
    pub(crate) width: usize,
    /// how many rows the cells make: counted, since the library's chunks divide for each row from the back and each length
    pub(crate) left: usize,
    ghost whole: { length cells.now ≡ left * width },
}

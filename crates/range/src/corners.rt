// The first and last row and column of a sheet, counted from row 0 and column 0.
#[derive(Clone, Copy, PartialEq, Eq, Debug)]
pub struct Corners {
    pub first_row: u32,
    pub first_column: u32,
    pub last_row: u32,
    pub last_column: u32,
}

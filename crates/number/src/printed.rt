// A printed number, held by value.
ghost use Rattle.std.specs.Prelude.{◌≤◌};

/// At most 20 bytes, which stand at the end of the array.
// Not a text of fixed capacity (`ArrayString`): a `?` that hands on such a text beside a lent slice,
// as a text form holds it, is not covered by the borrow checker.
#[derive(Clone, Copy)]
pub struct Printed {
    pub(crate) bytes: [u8; 20],
    pub(crate) start: usize,
    ghost within: { start ≤ 20 },
}

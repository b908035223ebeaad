// The digits of number text.
ghost use Rattle.std.specs.Prelude.{◌≡◌, true};
ghost use Rattle.std.specs.Str.{all_ascii_digits};

use number::sign::Signed;

/// What number text writes but for its sign: digits only, none where a part is not there.
#[derive(Clone, Copy)]
pub(crate) struct Digits<'a> {
    /// before the point
    pub(crate) whole: &'a [u8],
    /// after it
    pub(crate) fraction: &'a [u8],
    pub(crate) exponent: Signed<&'a [u8]>,
    ghost wholes: { all_ascii_digits whole.now ≡ true },
    ghost fractions: { all_ascii_digits fraction.now ≡ true },
    ghost exponents: { all_ascii_digits exponent.size.now ≡ true },
}

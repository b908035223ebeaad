// Whole numbers read from text, as `str::parse` reads them, in any width.
ghost use Rattle.std.specs.Prelude.{◌≡◌, ℤ, Some};
ghost use Rattle.std.specs.Option.{option_map};
ghost use Rattle.number.specs.Widths.{signed, under_sign, if_fits};
ghost use Rattle.number.specs.Numerals.{digits_in, whole_of_text, Writes};

use crate::digits::read_digits;
use crate::sign::{Signed, split_sign};
use crate::width::Width;

/// The number that a text writes: an optional sign, a minus only in a width that has one, and at
/// least one digit, where that number fits. None otherwise, which a reader refuses by number 13.
pub fn parse_whole<W: Width>(text: &[u8]) -> Option<W>
    ensures value { option_map W.Width.number result ≡ whole_of_text W.Width.wide text.now }
    ensures written { (z : ℤ) → whole_of_text W.Width.wide text.now ≡ Some z → Writes W.Width.wide text.now z }
    ensures read { (z : ℤ) → Writes W.Width.wide text.now z → whole_of_text W.Width.wide text.now ≡ Some z }
{
    let digits = split_sign(text);
    if digits.minus && !W::holds(-1) {
        None
    } else {
        parse_digits(digits)
    }
}

/// Digits under a sign, as a number of the width.
fn parse_digits<W: Width>(digits: Signed<&[u8]>) -> Option<W>
    ensures { option_map W.Width.number result ≡ digits_in W.Width.wide digits.entry.minus digits.entry.size.now }
{
    if digits.size.is_empty() {
        return None;
    }
    // Two lines, as where an exponent is read; what follows differs.
    let size = read_digits(0, digits.size)?;
    let minus = digits.minus;
    let number = Signed { minus, size }.to_whole()?;
    W::holds(number).then(|| W::narrow_whole(number))
}

impl Signed<u64> {
    /// The number that it is, where that has at most 64 bits. The sign is put on here, since each type
    /// asks something else of a negation.
    fn to_whole(self) -> Option<i64>
        ensures { result ≡ if_fits (signed 63) (under_sign self.minus self.size) }
    {
        let number = if self.minus {
            -i128::from(self.size)
        } else {
            i128::from(self.size)
        };
        i64::try_from(number).ok()
    }
}

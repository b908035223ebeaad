// Number text read as a float.
ghost use Rattle.std.specs.Prelude.{◌≡◌, Some};
ghost use Rattle.decimal.specs.Fault.{numbered, float_of_text};
ghost use Rattle.decimal.specs.Grammar.{Literal, literal};
ghost use Rattle.decimal.specs.Answer.{Spells, Answered, OneLiteral};

use crate::amount::read_amount;
use crate::digits::Digits;
use crate::fault::NumberFault;
use crate::split::{split_digits, split_exponent, split_fraction};
use number::sign::{Signed, split_sign};

/// The float nearest to the number that a text writes, at a tie the even one. The text is an
/// optional sign, digits with at most one point and at least one digit on some side of it, and an
/// optional exponent: `e` or `E`, an optional sign and at least one digit.
pub fn parse_float(text: &[u8]) -> Result<f64, NumberFault>
    ensures value { numbered result ≡ float_of_text text.now }
    ensures answered { Answered text.now result }
    ensures grammar { (l : Literal) → Spells text.now l → literal text.now ≡ Some l }
    ensures unique { OneLiteral }
{
    let Signed { minus, size: body } = split_sign(text);
    let (whole, rest) = split_digits(body);
    let (fraction, rest) = split_fraction(rest);
    let exponent = split_exponent(rest).ok_or(NumberFault::NotANumber)?;
    // Both at once: digits on one side of the point are enough.
    if whole.is_empty() & fraction.is_empty() {
        return Err(NumberFault::NotANumber);
    }
    let digits = Digits {
        whole,
        fraction,
        exponent,
    };
    let size = read_amount(digits).ok_or(NumberFault::OutOfRange)?;
    // a float's negation asks nothing, unlike a whole number's
    Ok(if minus { -size } else { size })
}

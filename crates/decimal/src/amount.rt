// The value of number text: all digits as one whole number times a power of ten, rounded once.
ghost use Rattle.std.specs.Prelude.{◌≡◌, ◌^◌, ◌<◌, true, false, pos, ◌-ℤ◌, if◌then◌else◌, Some, None, nat_lt};
ghost use Rattle.std.specs.Float.Ieee.Exact.{HasValue};
ghost use Rattle.number.specs.Widths.{under_sign};
ghost use Rattle.decimal.specs.Amount.{in_reach, nearest_decimal, amount};

use crate::digits::Digits;
use number::digits::read_digits;
use number::sign::Signed;

/// The powers of ten that are floats exactly. A table: its entries are exact as they stand, while
/// each product of `powi` would have to be shown so.
const TENS: [f64; 23] = [
    1e0, 1e1, 1e2, 1e3, 1e4, 1e5, 1e6, 1e7, 1e8, 1e9, 1e10, 1e11, 1e12, 1e13, 1e14, 1e15, 1e16,
    1e17, 1e18, 1e19, 1e20, 1e21, 1e22,
];

/// Whole numbers below 10^15 are floats exactly.
const LIMIT: u64 = 1_000_000_000_000_000;

/// The greatest exponent of a power of ten that is a float exactly.
const REACH: u32 = 22;

/// How many digits an exponent may have.
const EXPONENT_DIGITS: usize = 4;

/// An exponent of four digits does not make up for as many places.
const MANY_PLACES: usize = 20_000;

/// All digits as one whole number times ten to the scale. None where there are more than four
/// exponent digits, where the number is 10^15 or more, or where the scale is out of reach and the
/// number is not 0.
pub(crate) fn read_amount(digits: Digits<'_>) -> Option<f64>
    ensures { result ≡ amount false digits.entry.whole.now digits.entry.fraction.now digits.entry.exponent.minus digits.entry.exponent.size.now }
{
    let Digits {
        whole,
        fraction,
        exponent,
    } = digits;
    if exponent.size.len() > EXPONENT_DIGITS {
        return None;
    }
    let before_point = read_digits(0, whole)?;
    let number = read_digits(before_point, fraction)?;
    if !is_read(number) {
        return None;
    }
    if number == 0 {
        return Some(0.0);
    }
    // As a whole number is read; what follows differs, and a function for these two lines would be no plainer.
    let minus = exponent.minus;
    let size = read_digits(0, exponent.size)?;
    let scale = find_scale(Signed { minus, size }, fraction.len())?;
    Some(scale_by_ten(number, scale))
}

/// Whether a number is small enough to be read.
fn is_read(number: u64) -> bool
    ensures { result ≡ nat_lt number (10 ^ 15) }
{
    number < LIMIT
}

/// The exponent less the number of places, where it is from -22 to 22.
fn find_scale(power: Signed<u64>, places: usize) -> Option<i32>
    requires { power.size < 10 ^ 4 }
    ensures { result ≡ (if in_reach (under_sign power.minus power.size -ℤ pos places) then Some (under_sign power.minus power.size -ℤ pos places) else None) }
{
    // Sizes and places are small: a `try_from` would add a refusal that never comes. The sign is put on
    // here, since each type asks something else of a negation.
    let size = power.size as i32;
    let exponent = if power.minus { -size } else { size };
    let scale = exponent - places.min(MANY_PLACES) as i32;
    (scale.unsigned_abs() <= REACH).then_some(scale)
}

/// A number times ten to the scale: one rounded product or quotient of exact floats.
fn scale_by_ten(number: u64, scale: i32) -> f64
    requires small { number < 10 ^ 15 }
    requires reached { in_reach scale ≡ true }
    ensures { result ≡ nearest_decimal false number scale }
{
    let digits = number as f64;
    let ten = ten_to(scale.unsigned_abs() as usize);
    if scale >= 0 {
        digits * ten
    } else {
        digits / ten
    }
}

/// A power of ten, exactly.
fn ten_to(power: usize) -> f64
    requires { power < 23 }
    ensures { HasValue result false (10 ^ power) 1 }
{
    TENS[power]
}

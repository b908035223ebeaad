// Floats of 64 bits beside whole numbers and their own bits.
ghost use Rattle.std.specs.Prelude.{◌≡◌};
ghost use Rattle.std.specs.Float.Ieee as Ieee;
ghost use Rattle.std.specs.Float.{binary64};
ghost use Rattle.number.specs.Nearness.{nearest_float, zero_float};

use std::num::{f64_from_bits_with_nan, nearest_i64_to_f64};

/// The float nearest to a whole number, and at a tie the even one.
pub fn nearest(n: i64) -> f64
    ensures { result ≡ nearest_float n }
{
    nearest_i64_to_f64(n)
}

/// Whether a float is zero: both zeros are, not-a-number is not.
pub fn is_zero(x: f64) -> bool
    ensures { result ≡ zero_float x }
{
    x == 0.0
}

/// The float that 64 bits stand for. All patterns of not-a-number are one.
pub fn float_of_bits(bits: u64) -> f64
    ensures { result ≡ Ieee.of_bits binary64 bits }
{
    f64_from_bits_with_nan(bits)
}

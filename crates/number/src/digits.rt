// Decimal digits.
ghost use Rattle.std.specs.Prelude.{◌≡◌};
ghost use Rattle.number.specs.Numerals.{digits_after};

/// The number that digits write after those of `after`. None where a byte is no digit, or where
/// the number has more than 64 bits.
pub fn read_digits(after: u64, digits: &[u8]) -> Option<u64>
    ensures { result ≡ digits_after after digits.now }
{
    let mut number = after;
    for digit in digits {
        if !digit.is_ascii_digit() {
            return None;
        }
        let tens = number.checked_mul(10)?;
        number = tens.checked_add(u64::from(*digit - b'0'))?;
    }
    Some(number)
}

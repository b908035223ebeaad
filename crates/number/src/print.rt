// Numbers printed in decimal, and a yes/no printed in words.
ghost use Rattle.std.specs.Prelude.{◌≡◌, ◌^◌, ◌≤◌, [], length, Some};
ghost use Rattle.std.specs.Option.{option_map};
ghost use Rattle.number.specs.Forms.{signed_text, whole_text, whole_size, float_text, bool_text};
ghost use Rattle.number.specs.Stamp.{printed_text};
ghost use Rattle.number.specs.Back.{ReadsBack};
ghost use Rattle.number.specs.Widths.{signed};
ghost use Rattle.number.specs.Numerals.{whole_of_text};

use crate::printed::Printed;
use crate::sign::Signed;
use std::num::saturating_f64_to_u64;

impl Printed {
    /// What nothing is printed as: no bytes.
    pub fn empty() -> Printed
        ensures { printed_text result ≡ [] }
    {
        Printed::holding(b"")
    }

    /// These bytes.
    fn holding(text: &[u8]) -> Printed
        requires { length text.now ≤ 20 }
        ensures { printed_text result ≡ text.now }
    {
        let start = 20 - text.len();
        let mut bytes = [0; 20];
        bytes[start..].copy_from_slice(text);
        Printed { bytes, start }
    }

    /// The bytes of the printed number.
    pub fn as_bytes(&self) -> &[u8]
        ensures { result.now ≡ printed_text self.now }
    {
        &self.bytes[self.start..]
    }
}

/// A whole number in decimal.
pub fn print_whole(n: i64) -> Printed
    ensures text { printed_text result ≡ whole_text n }
    ensures back { whole_of_text (signed 63) (printed_text result) ≡ Some n }
{
    print_signed(Signed {
        minus: n < 0,
        size: n.unsigned_abs(),
    })
}

/// A float that is whole and below 2^53 in size in decimal, minus zero as `-0`. None for any other
/// float, which has no text form: a reader refuses it by number 8.
pub fn print_float(x: f64) -> Option<Printed>
    ensures text { option_map printed_text result ≡ float_text x }
    ensures back { ReadsBack x }
{
    whole_size(x).map(print_signed)
}

/// A yes as `true`, a no as `false`.
pub fn print_bool(value: bool) -> Printed
    ensures { printed_text result ≡ bool_text value }
{
    Printed::holding(if value { b"true".as_slice() } else { b"false" })
}

/// A size in decimal, after a minus where there is one.
fn print_signed(whole: Signed<u64>) -> Printed
    requires { whole.size ≤ 2 ^ 63 }
    ensures { printed_text result ≡ signed_text whole.minus whole.size }
{
    let mut bytes = [0; 20];
    let mut start = itoa::write_digits(whole.size, &mut bytes, 20);
    if whole.minus {
        start -= 1;
        bytes[start] = b'-';
    }
    Printed { bytes, start }
}

/// The sign and the size of a float that is whole and below 2^53 in size.
fn whole_size(x: f64) -> Option<Signed<u64>>
    ensures { option_map (λ s. (s.minus, s.size)) result ≡ whole_size x }
{
    if x.is_nan() {
        return None;
    }
    let minus = x.is_sign_negative();
    let magnitude = x.abs();
    let size = saturating_f64_to_u64(magnitude);
    (size < 1 << 53 && size as f64 == magnitude).then_some(Signed { minus, size })
}

// Number text taken apart.
ghost use Rattle.std.specs.Prelude.{◌≡◌, ℕ, Bool, List};
ghost use Rattle.std.specs.Option.{option_map};
ghost use Rattle.decimal.specs.Grammar.{places, front_digits, past_digits, front_fraction, past_fraction, exponent_of};
ghost use Rattle.decimal.specs.Amount.{heading, power_of};

use number::sign::{Signed, split_sign};

/// The digits that a text begins with, and what follows them.
pub(crate) fn split_digits(text: &[u8]) -> (&[u8], &[u8])
    ensures digits { result.0.now ≡ front_digits text.now }
    ensures rest { result.1.now ≡ past_digits text.now }
{
    let end = text.iter().position(|byte| !byte.is_ascii_digit());
    text.split_at(end.unwrap_or(text.len()))
}

/// The digits after a point that a text begins with, and what follows them. No digits where it
/// begins with no point.
pub(crate) fn split_fraction(text: &[u8]) -> (&[u8], &[u8])
    ensures digits { result.0.now ≡ places (front_fraction text.now) }
    ensures rest { result.1.now ≡ past_fraction text.now }
{
    match text {
        [b'.', rest @ ..] => split_digits(rest),
        _ => (&[], text),
    }
}

/// The sign and the digits of an exponent; no digits where the text is empty. None where the text is
/// no exponent from end to end.
pub(crate) fn split_exponent(text: &[u8]) -> Option<Signed<&[u8]>>
    ensures { option_map {U = Bool × List ℕ} (λ p. (p.minus, p.size.now)) result ≡ option_map heading (exponent_of text.now) }
{
    match text {
        [] => Some(Signed {
            minus: false,
            size: text,
        }),
        [b'e' | b'E', rest @ ..] => split_power(rest),
        _ => None,
    }
}

/// A sign and the digits under it: an optional sign, at least one digit and nothing else.
fn split_power(text: &[u8]) -> Option<Signed<&[u8]>>
    ensures { option_map {U = Bool × List ℕ} (λ p. (p.minus, p.size.now)) result ≡ power_of text.now }
{
    let power = split_sign(text);
    let (digits, tail) = split_digits(power.size);
    (!digits.is_empty() && tail.is_empty()).then_some(power)
}

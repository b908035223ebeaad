// The sign in front of a number.
ghost use Rattle.std.specs.Prelude.{◌≡◌};
ghost use Rattle.number.specs.Numerals.{sign_of, is_minus, after_sign};

/// A sign and what stands under it: digits, or the number that they write.
#[derive(Clone, Copy, PartialEq, Eq, Debug)]
pub struct Signed<T> {
    /// Whether the sign is a minus.
    pub minus: bool,
    pub size: T,
}

/// The sign that a text begins with, and what follows it.
pub fn split_sign(text: &[u8]) -> Signed<&[u8]>
    ensures minus { result.minus ≡ is_minus (sign_of text.now) }
    ensures rest { result.size.now ≡ after_sign text.now }
{
    let (minus, size) = match text {
        [b'-', rest @ ..] => (true, rest),
        [b'+', rest @ ..] => (false, rest),
        _ => (false, text),
    };
    Signed { minus, size }
}

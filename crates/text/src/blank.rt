// Which characters are white space, and which trimming takes away.
ghost use Rattle.std.specs.Prelude.{◌≡◌};
ghost use Rattle.text.specs.WhiteSpace.{blank, white_space};

/// Unicode's property White_Space.
pub fn is_white_space(c: char) -> bool
    ensures { result ≡ white_space c }
{
    c.is_whitespace()
}

/// What trimming removes from the ends of a text.
pub fn is_blank(c: char) -> bool
    ensures { result ≡ blank c }
{
    is_white_space(c)
}

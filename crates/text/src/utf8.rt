// UTF-8 by RFC 3629, read by the library: the first character of some bytes, and whether all of them are text.
ghost use Rattle.std.specs.Prelude.{◌≡◌, IsAscii, IsTrue, IsUtf8, MatchBool};
ghost use Rattle.text.specs.Encoding.{FirstCharacter, is_utf8};

/// A character, and how many bytes its encoding takes.
#[derive(Clone, Copy, PartialEq, Eq, Debug)]
pub struct Decoded {
    pub character: char,
    pub len: usize,
}

/// The character whose encoding begins the bytes, or none where no character's does.
pub fn first_char(bytes: &[u8]) -> Option<Decoded>
    ensures { FirstCharacter bytes.now result }
{
    match bytes {
        // An ASCII byte is a character by itself, sooner read here than by the library.
        [lead, ..] if lead.is_ascii() => Some(Decoded {
            character: char::from(*lead),
            len: 1,
        }),
        _ => first_by_library(bytes),
    }
}

/// The same, read by the library.
fn first_by_library(bytes: &[u8]) -> Option<Decoded>
    ensures { FirstCharacter bytes.now result }
{
    // No encoding is longer, so what follows need not be read.
    let front = &bytes[..bytes.len().min(char::MAX_LEN_UTF8)];
    let text = front.utf8_chunks().next()?.valid();
    let character = text.chars().next()?;
    Some(Decoded {
        character,
        len: character.len_utf8(),
    })
}

/// Are the bytes the encoding of some list of characters?
pub fn is_utf8(bytes: &[u8]) -> bool
    ensures is { result ≡ is_utf8 bytes.now }
    ensures law { MatchBool result (IsUtf8 bytes.now) (IsUtf8 bytes.now → ⊥) }
{
    is_short_ascii(bytes) || str::from_utf8(bytes).is_ok()
}

/// Are the bytes ASCII, and so few that the library's check would cost more than a look at each?
fn is_short_ascii(bytes: &[u8]) -> bool
    ensures { IsTrue result → IsAscii bytes.now }
{
    bytes.len() < 8 && bytes.iter().all(u8::is_ascii)
}

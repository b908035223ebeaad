// Blank characters taken from both ends of a text.
ghost use Rattle.std.specs.Prelude.{◌≡◌, ℕ, ◌+◌, ◌≤◌, List, length, take, drop};
ghost use Rattle.text.specs.Trimming.{trimmed, trimmed_start, Trims, Leaves};

/// A part of some bytes: where it starts, and how many bytes it has. It is kept in place of a copy, for which there is no heap.
#[derive(Clone, Copy, PartialEq, Eq, Debug)]
pub struct Part {
    pub start: usize,
    pub len: usize,
}

/// Where in the bytes lies what trimming leaves of them: 0 and 0 if nothing is left, all of them if they are not UTF-8.
pub fn trimmed_part(bytes: &[u8]) -> Part
    ensures start { result.start ≡ trimmed_start bytes.now }
    ensures len { result.len ≡ length (trimmed bytes.now) }
    ensures inside { result.start + result.len ≤ length bytes.now }
    ensures part { take result.len (drop result.start bytes.now) ≡ trimmed bytes.now }
    ensures law { Leaves bytes.now result.start result.len }
    ensures only { (start len : ℕ) → Leaves bytes.now start len → (start ≡ result.start) × (len ≡ result.len) }
{
    let Ok(text) = str::from_utf8(bytes) else {
        return Part {
            start: 0,
            len: bytes.len(),
        };
    };
    let from_first = text.trim_start();
    let kept = from_first.trim_end();
    if kept.is_empty() {
        return Part { start: 0, len: 0 };
    }
    Part {
        start: text.len() - from_first.len(),
        len: kept.len(),
    }
}

/// The bytes without the blank characters at both ends; as they are if they are not UTF-8.
pub fn trim(bytes: &[u8]) -> &[u8]
    ensures is { result.now ≡ trimmed bytes.now }
    ensures law { Trims bytes.now result.now }
    ensures only { (x : List ℕ) → Trims bytes.now x → x ≡ trimmed bytes.now }
{
    str::from_utf8(bytes).map_or(bytes, |text| text.trim().as_bytes())
}

// Examples and edges of every public call.
use crate::blank::{is_blank, is_white_space};
use crate::names::Names;
use crate::trim::{Part, trim, trimmed_part};
use crate::utf8::{Decoded, first_char, is_utf8};
use std::test::Fail;

// RFC 3629's examples, the first and the last character of each length, and no bytes.
#[test]
fn encodings_are_utf8(rt: HostRuntime) {
    let texts: [&[u8]; 9] = [
        b"\x41\xe2\x89\xa2\xce\x91\x2e",
        b"\xed\x95\x9c\xea\xb5\xad\xec\x96\xb4",
        b"\xe6\x97\xa5\xe6\x9c\xac\xe8\xaa\x9e",
        b"\xef\xbb\xbf\xf0\xa3\x8e\xb4",
        b"\x00\x7f",
        b"\xc2\x80\xdf\xbf",
        b"\xe0\xa0\x80\xed\x9f\xbf\xee\x80\x80\xef\xbf\xbf",
        b"\xf0\x90\x80\x80\xf4\x8f\xbf\xbf",
        b"",
    ];
    for text in texts {
        assert!(rt; is_utf8(text));
    }
}

// Overlong forms, surrogates, what lies above U+10FFFF, bytes that never occur, a lone continuation byte, and encodings cut short.
#[test]
fn no_character_begins_other_bytes(rt: HostRuntime) {
    let others: [&[u8]; 18] = [
        b"\xc0\x80",
        b"\xc1\xbf",
        b"\xe0\x9f\xbf",
        b"\xf0\x8f\xbf\xbf",
        b"\xed\xa0\x80",
        b"\xed\xbf\xbf",
        b"\xf4\x90\x80\x80",
        b"\xf5\x80\x80\x80",
        b"\xfe",
        b"\xff",
        b"\x80",
        b"\xbfa",
        b"\xc3",
        b"\xc3a",
        b"\xe2\x89",
        b"\xe2\x89a",
        b"\xf0\xa3\x8e",
        b"\xf0\xa3\x8ea",
    ];
    for other in others {
        assert!(rt; first_char(other).is_none());
        assert!(rt; !is_utf8(other));
    }
}

// One to four bytes, with more behind them, and nothing.
#[test]
fn first_characters(rt: HostRuntime) {
    let cases: [(&[u8], char, usize); 4] = [
        (b"RA", 'R', 1),
        (b"\xc2\x85 ", '\u{85}', 2),
        (b"\xe2\x89\xa2\xff", '\u{2262}', 3),
        (b"\xf0\xa3\x8e\xb4\xf0", '\u{233b4}', 4),
    ];
    for (bytes, character, len) in cases {
        assert_eq!(rt; first_char(bytes), Some(Decoded { character, len }));
    }
    assert_eq!(rt; first_char(b""), None);
}

// Each of the 25 white space characters on both sides of a letter.
#[test]
fn white_space_is_trimmed(rt: HostRuntime) -> Result<(), Fail> {
    let texts = [
        "\u{9}a\u{9}",
        "\u{a}a\u{a}",
        "\u{b}a\u{b}",
        "\u{c}a\u{c}",
        "\u{d}a\u{d}",
        "\u{20}a\u{20}",
        "\u{85}a\u{85}",
        "\u{a0}a\u{a0}",
        "\u{1680}a\u{1680}",
        "\u{2000}a\u{2000}",
        "\u{2001}a\u{2001}",
        "\u{2002}a\u{2002}",
        "\u{2003}a\u{2003}",
        "\u{2004}a\u{2004}",
        "\u{2005}a\u{2005}",
        "\u{2006}a\u{2006}",
        "\u{2007}a\u{2007}",
        "\u{2008}a\u{2008}",
        "\u{2009}a\u{2009}",
        "\u{200a}a\u{200a}",
        "\u{2028}a\u{2028}",
        "\u{2029}a\u{2029}",
        "\u{202f}a\u{202f}",
        "\u{205f}a\u{205f}",
        "\u{3000}a\u{3000}",
    ];
    let letter: &[u8] = b"a";
    for text in texts {
        let bytes = text.as_bytes();
        let Some(first) = first_char(bytes) else {
            return Err(Fail::new("no character"));
        };
        assert!(rt; is_white_space(first.character));
        assert!(rt; is_blank(first.character));
        assert_eq!(rt;
            trimmed_part(bytes),
            Part {
                start: first.len,
                len: 1,
            }
        );
        assert!(rt; trim(bytes) == letter);
    }
    Ok(())
}

// The characters next to white space on both sides of a letter.
#[test]
fn neighbours_of_white_space_stay(rt: HostRuntime) -> Result<(), Fail> {
    let texts = [
        "\u{8}a\u{e}",
        "\u{1f}a\u{21}",
        "\u{84}a\u{86}",
        "\u{9f}a\u{a1}",
        "\u{167f}a\u{1681}",
        "\u{1fff}a\u{200b}",
        "\u{2027}a\u{202a}",
        "\u{202e}a\u{2030}",
        "\u{205e}a\u{2060}",
        "\u{2fff}a\u{3001}",
    ];
    for text in texts {
        let bytes = text.as_bytes();
        let Some(first) = first_char(bytes) else {
            return Err(Fail::new("no character"));
        };
        assert!(rt; !is_white_space(first.character));
        assert!(rt; !is_blank(first.character));
        assert!(rt; trim(bytes) == bytes);
    }
    Ok(())
}

// Nothing, only blanks, blanks inside, and bytes that are not UTF-8 as a whole.
#[test]
fn parts_left_by_trimming(rt: HostRuntime) {
    let cases: [(&[u8], usize, usize); 8] = [
        (b"", 0, 0),
        (b"  \xe3\x80\x80\t", 0, 0),
        (b"RA", 0, 2),
        (b" RA ", 1, 2),
        (b"\xc2\x85right ascension\n", 2, 15),
        (b" \xff ", 0, 3),
        (b" a\xc2", 0, 3),
        (b"\x85a", 0, 2),
    ];
    for (bytes, start, len) in cases {
        assert_eq!(rt; trimmed_part(bytes), Part { start, len });
        assert_eq!(rt; trim(bytes).len(), len);
    }
}

// No names, an empty name, a text with more than its names; ends that fall or leave the text, a name cut inside a character.
#[test]
fn sound_and_unsound_names(rt: HostRuntime) {
    let cases: [(&[u8], &[u32], bool); 9] = [
        (b"", &[], true),
        (b"RADec", &[], true),
        (b"RADec", &[2, 5], true),
        (b"RADec", &[0, 2, 2], true),
        (b"\xc3\xa9", &[2], true),
        (b"\xc3\xa9", &[1, 2], false),
        (b"RADec", &[5, 2], false),
        (b"RADec", &[2, 6], false),
        (b"\xff", &[1], false),
    ];
    for (text, ends, sound) in cases {
        let names = Names { text, ends };
        assert_eq!(rt; names.is_sound(), sound);
        assert_eq!(rt; names.count(), ends.len());
    }
}

#[test]
fn names_by_index(rt: HostRuntime) {
    let names = Names {
        text: b"RADec",
        ends: &[2, 5, 3, 6],
    };
    let first: &[u8] = b"RA";
    let second: &[u8] = b"Dec";
    assert_eq!(rt; names.get(0), Some(first));
    assert_eq!(rt; names.get(1), Some(second));
    assert_eq!(rt; names.get(2), None, "its end falls");
    assert_eq!(rt; names.get(3), None, "its end leaves the text");
    assert_eq!(rt; names.get(4), None, "past the last name");
}

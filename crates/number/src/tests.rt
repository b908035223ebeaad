// Tables of edge values for each public call.
use crate::digits::read_digits;
use crate::float::{float_of_bits, is_zero, nearest};
use crate::parse::parse_whole;
use crate::print::{print_float, print_whole};
use crate::sign::{Signed, split_sign};
use crate::width::Width;
use std::test::Fail;

#[test]
fn floats_are_narrowed(rt: HostRuntime) {
    let not_a_number = float_of_bits(0x7ff8_0000_0000_0000);
    let cases = [
        (not_a_number, 0, 0, 0),
        (-2.9, -2, 0, 0),
        (-0.0, 0, 0, 0),
        (2.9, 2, 2, 2),
        (255.9, 255, 255, 255),
        (256.0, 256, 256, 255),
        (4294967295.5, 4294967295, 4294967295, 255),
        (4294967296.0, 4294967296, 4294967295, 255),
        (1e300, i64::MAX, 4294967295, 255),
        (-1e300, i64::MIN, 0, 0),
    ];
    for (float, long, wide, byte) in cases {
        assert!(rt; <i64 as crate::width::Width>::narrow_float(float) == long);
        assert!(rt; <u32 as crate::width::Width>::narrow_float(float) == wide);
        assert!(rt; <u8 as crate::width::Width>::narrow_float(float) == byte);
    }
}

#[test]
fn wholes_are_narrowed(rt: HostRuntime) {
    let cases = [
        (300, 300, 44),
        (-1, 4294967295, 255),
        (256, 256, 0),
        (4294967296, 0, 0),
        (i64::MIN, 0, 0),
        (i64::MAX, 4294967295, 255),
    ];
    for (whole, wide, byte) in cases {
        assert!(rt; <i64 as crate::width::Width>::narrow_whole(whole) == whole);
        assert!(rt; <u32 as crate::width::Width>::narrow_whole(whole) == wide);
        assert!(rt; <u8 as crate::width::Width>::narrow_whole(whole) == byte);
        assert!(rt; <i64 as crate::width::Width>::holds(whole));
        assert!(rt; <u32 as crate::width::Width>::holds(whole) == (whole == wide as i64));
        assert!(rt; <u8 as crate::width::Width>::holds(whole) == (whole == byte as i64));
    }
}

#[test]
fn texts_are_parsed(rt: HostRuntime) {
    let cases: [(&[u8], Option<i64>, Option<u32>, Option<u8>); 21] = [
        (b"", None, None, None),
        (b"+", None, None, None),
        (b"-", None, None, None),
        (b"+-1", None, None, None),
        (b"1_0", None, None, None),
        (b" 1", None, None, None),
        (b"0x1", None, None, None),
        (b"0", Some(0), Some(0), Some(0)),
        (b"+0007", Some(7), Some(7), Some(7)),
        (b"-0", Some(0), None, None),
        (b"-7", Some(-7), None, None),
        (b"255", Some(255), Some(255), Some(255)),
        (b"256", Some(256), Some(256), None),
        (b"4294967295", Some(4294967295), Some(4294967295), None),
        (b"4294967296", Some(4294967296), None, None),
        (b"9223372036854775807", Some(i64::MAX), None, None),
        (b"9223372036854775808", None, None, None),
        (b"-9223372036854775808", Some(i64::MIN), None, None),
        (b"-9223372036854775809", None, None, None),
        (b"18446744073709551616", None, None, None),
        (b"18446744073709551617", None, None, None),
    ];
    for (text, long, wide, byte) in cases {
        assert!(rt; parse_whole(text) == long);
        assert!(rt; parse_whole(text) == wide);
        assert!(rt; parse_whole(text) == byte);
    }
    let mut zeros = [b'0'; 2000];
    zeros[1999] = b'7';
    assert!(rt; parse_whole(&zeros) == Some(7_u8));
    assert!(rt; read_digits(12, b"34") == Some(1234));
    assert!(rt; read_digits(12, b"3.4") == None);
    assert!(rt;
        split_sign(b"-5")
            == Signed {
                minus: true,
                size: b"5"
            }
    );
}

#[test]
fn numbers_are_printed(rt: HostRuntime) -> Result<(), Fail> {
    let wholes: [(i64, &[u8]); 5] = [
        (0, b"0"),
        (-1, b"-1"),
        (1200, b"1200"),
        (i64::MAX, b"9223372036854775807"),
        (i64::MIN, b"-9223372036854775808"),
    ];
    for (whole, text) in wholes {
        assert!(rt; print_whole(whole).as_bytes() == text);
    }
    let floats: [(f64, &[u8]); 5] = [
        (0.0, b"0"),
        (-0.0, b"-0"),
        (12.0, b"12"),
        (9007199254740991.0, b"9007199254740991"),
        (-9007199254740991.0, b"-9007199254740991"),
    ];
    for (float, text) in floats {
        let Some(printed) = print_float(float) else {
            return Err(Fail::new("a whole float has a text form"));
        };
        assert!(rt; printed.as_bytes() == text);
    }
    for float in [
        12.5,
        9007199254740992.0,
        1.0 / 0.0,
        float_of_bits(0x7ff8_0000_0000_0000),
    ] {
        assert!(rt; print_float(float).is_none());
    }
    Ok(())
}

#[test]
fn floats_are_near(rt: HostRuntime) {
    let cases = [
        (0, 0.0),
        (-3, -3.0),
        (9007199254740993, 9007199254740992.0),
        (9007199254740995, 9007199254740996.0),
        (i64::MAX, 9223372036854775808.0),
    ];
    for (whole, float) in cases {
        assert!(rt; nearest(whole) == float);
        assert!(rt; is_zero(float) == (whole == 0));
    }
    assert!(rt; is_zero(-0.0) && !is_zero(float_of_bits(1)));
    assert!(rt; !is_zero(float_of_bits(0x7ff8_0000_0000_0000)));
}

// Tables of edge values.
use crate::fault::NumberFault;
use crate::parse::parse_float;
use questions::fault::Fault;
use std::test::Fail;

#[test]
fn numbers_are_read(rt: HostRuntime) -> Result<(), Fail> {
    let cases: [(&[u8], f64); 22] = [
        (b"0", 0.0),
        (b"+7", 7.0),
        (b"-7", -7.0),
        (b"5.", 5.0),
        (b".5", 0.5),
        (b"-.5e1", -5.0),
        (b"1e5", 100000.0),
        (b"1E+05", 100000.0),
        (b"25e-1", 2.5),
        (b"0.1", 0.1),
        (b"3.14159", 3.14159),
        (b"123456789012345", 123456789012345.0),
        (b"999999999999999", 999999999999999.0),
        (b"99999999999999.9", 99999999999999.9),
        (b"1e22", 1e22),
        (b"999999999999999e22", 999999999999999e22),
        (b"1e-22", 1e-22),
        (b".1e23", 1e22),
        (b"0.0000000000000000000001", 1e-22),
        (b"0e9999", 0.0),
        (b"0.0e-9999", 0.0),
        (b"000000000000000000001.5", 1.5),
    ];
    for (text, value) in cases {
        assert!(rt; parse_float(text) == Ok(value));
    }
    let Ok(minus_zero) = parse_float(b"-0") else {
        return Err(Fail::new("minus zero is read"));
    };
    assert!(rt; minus_zero == 0.0 && 1.0 / minus_zero < 0.0);
    Ok(())
}

#[test]
fn other_text_is_refused(rt: HostRuntime) {
    let cases: [&[u8]; 18] = [
        b"",
        b"+",
        b"-",
        b".",
        b"-.",
        b"e5",
        b".e5",
        b"1e",
        b"1e+",
        b"1e5.",
        b"1.2.3",
        b"1 ",
        b"--1",
        b"0x1",
        b"1_0",
        b"inf",
        b"nan",
        b"infinity",
    ];
    for text in cases {
        assert!(rt; parse_float(text) == Err(NumberFault::NotANumber));
    }
    assert!(rt; parse_float(b"1e99999x") == Err(NumberFault::NotANumber));
}

#[test]
fn numbers_beyond_the_limits_are_refused(rt: HostRuntime) {
    let cases: [&[u8]; 10] = [
        b"1000000000000000",
        b"1234567890123456",
        b"99999999999999999999999",
        b"1e23",
        b"1e-23",
        b"1.5e-22",
        b"10e-23",
        b"1e00001",
        b"0e99999",
        b"1e9999",
    ];
    for text in cases {
        assert!(rt; parse_float(text) == Err(NumberFault::OutOfRange));
    }
}

#[test]
fn long_texts_end(rt: HostRuntime) {
    let mut zeros = [b'0'; 2000];
    assert!(rt; parse_float(&zeros) == Ok(0.0));
    zeros[1999] = b'7';
    assert!(rt; parse_float(&zeros) == Ok(7.0));
    zeros[0] = b'.';
    assert!(rt; parse_float(&zeros) == Err(NumberFault::OutOfRange));
    zeros[1999] = b'0';
    assert!(rt; parse_float(&zeros) == Ok(0.0));
    zeros[1] = b'7';
    assert!(rt; parse_float(&zeros) == Err(NumberFault::OutOfRange));
}

#[test]
fn numbers_of_faults(rt: HostRuntime) {
    assert_eq!(rt; NumberFault::NotANumber.number(), 13);
    assert_eq!(rt; NumberFault::OutOfRange.number(), 14);
}

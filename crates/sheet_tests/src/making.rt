// The three questions of making, one short, exact and one over.
use questions::fault::Fault;
use range::corners::Corners;
use range::fault::RangeFault;
use range::sheet::Range;

// first row, first column, last row, last column, cells given, and the number that refuses; 0 where the sheet is made,
// since an option in each row would be no plainer
const CASES: [(u32, u32, u32, u32, usize, u8); 16] = [
    (0, 0, 0, 0, 1, 0),
    (0, 0, 1, 2, 6, 0),
    (0, 0, 1, 2, 5, 3),
    (0, 0, 1, 2, 7, 3),
    (0, 0, 0, 0, 0, 3),
    (1, 0, 0, 5, 6, 1),
    (0, 5, 1, 4, 6, 1),
    (1, 1, 1, 0, 1, 1),
    (7, 7, 7, 7, 1, 0),
    (1048575, 0, 1048575, 0, 1, 0),
    (1048576, 0, 1048576, 0, 1, 2),
    (0, 16383, 0, 16383, 1, 0),
    (0, 16384, 0, 16384, 1, 2),
    (0, 16385, 0, 16384, 1, 1),
    (4294967295, 4294967295, 4294967295, 4294967295, 1, 2),
    (0, 0, 1048575, 4095, 0, 3),
];

#[test]
fn questions(rt: HostRuntime) {
    let cells = [0u8; 8];
    for (first_row, first_column, last_row, last_column, count, refused) in CASES {
        let corners = Corners {
            first_row,
            first_column,
            last_row,
            last_column,
        };
        let (given, _) = cells.split_at(count.min(8));
        let mut range = Range::empty();
        let number = match range.make(corners, given, b"text") {
            Ok(()) => 0,
            Err(fault) => fault.number(),
        };
        assert_eq!(rt; number, refused);
        assert_eq!(rt; range.is_empty(), refused != 0);
    }
}

#[test]
fn from_parts(rt: HostRuntime) {
    let cells = [0u8; 8];
    for (first_row, first_column, last_row, last_column, count, refused) in CASES {
        let corners = Corners {
            first_row,
            first_column,
            last_row,
            last_column,
        };
        let (given, _) = cells.split_at(count.min(8));
        match Range::from_parts(corners, given, b"text") {
            Ok(range) => {
                assert_eq!(rt; refused, 0);
                assert_eq!(rt; range.start(), Some((first_row, first_column)));
                assert_eq!(rt; range.cells().len(), count);
                assert!(rt; range.text() == b"text".as_slice());
            }
            Err(fault) => assert_eq!(rt; fault.number(), refused),
        }
    }
}

#[test]
fn counts(rt: HostRuntime) {
    // 2^34 cells: no product of 32 bits holds them
    let whole = Corners {
        first_row: 0,
        first_column: 0,
        last_row: 1048575,
        last_column: 16383,
    };
    assert_eq!(rt; whole.cell_count(), Ok(17179869184));
    let turned = Corners {
        first_row: 1,
        first_column: 0,
        last_row: 0,
        last_column: 16384,
    };
    assert_eq!(rt; turned.cell_count(), Err(RangeFault::Reversed));
}

#[test]
fn refused_is_kept(rt: HostRuntime) {
    let one = Corners {
        first_row: 3,
        first_column: 4,
        last_row: 3,
        last_column: 4,
    };
    let mut range = Range::empty();
    assert!(rt; range.make(one, &[5u8], b"kept").is_ok());
    assert!(rt; range.make(one, &[5u8, 6u8], b"new").is_err());
    assert_eq!(rt; range.start(), Some((3, 4)));
    assert_eq!(rt; range.end(), Some((3, 4)));
    assert_eq!(rt; range.get_size(), (1, 1));
    assert!(rt; range.text() == b"kept".as_slice());
    assert_eq!(rt; range.get((0, 0)), Some(&5));
}

// Sheet files at the edges of every question.
use datatype::cell_error_type::{CellErrorType, UnknownErrorType};
use datatype::data::Data;
use questions::fault::Fault;
use range::sheet::Range;
use sheetfile::sheet_file::{fill_cells, read_sheet, worksheet_range};
use std::test::Fail;

// one row and two columns from row 1 and column 2 on, a whole -2 and an empty cell, the text `ok`
const GOOD: [u8; 60] = [
    24, 0, 0, 0, 16, 0, 0, 0, 40, 0, 0, 0, 18, 0, 0, 0, 58, 0, 0, 0, 2, 0, 0, 0, // contents
    1, 0, 0, 0, 2, 0, 0, 0, 1, 0, 0, 0, 3, 0, 0, 0, // shape
    1, 254, 255, 255, 255, 255, 255, 255, 255, // whole
    0, 0, 0, 0, 0, 0, 0, 0, 0, // empty
    b'o', b'k',
];

// a byte of the good file changed, and the number that then refuses; 0 where the file is still read, since an option in
// each row would be no plainer
const CHANGES: [(usize, u8, u8); 17] = [
    (0, 25, 18),
    (4, 15, 18),
    (8, 41, 18),
    (12, 17, 18),
    (16, 59, 18),
    (20, 1, 18),
    (23, 1, 18),
    (24, 2, 1),
    (28, 4, 1),
    (35, 1, 2),
    (37, 64, 2),
    (32, 2, 3),
    (36, 4, 3),
    (40, 12, 19),
    (40, 3, 0),
    (49, 11, 0),
    (57, 1, 19),
];

#[test]
fn changed_bytes(rt: HostRuntime) {
    for (at, byte, refused) in CHANGES {
        let mut file = GOOD;
        if at < 60 {
            file[at] = byte;
        }
        let mut store = [Data::Bool(true); 3];
        let number = match fill_cells(&file, &mut store) {
            Ok(()) => 0,
            Err(fault) => fault.number(),
        };
        assert_eq!(rt; number, refused);
        // an earlier no writes nothing, and the entry behind the cells keeps its contents
        assert!(rt; (store[0] == Data::Bool(true)) | (number == 0) | (number == 19));
        assert!(rt; store[2] == Data::Bool(true));
    }
}

#[test]
fn lengths_and_stores(rt: HostRuntime) -> Result<(), Fail> {
    for len in 0..60 {
        let (short, _) = GOOD.split_at(len);
        let mut store = [Data::Empty; 2];
        assert!(rt; fill_cells(short, &mut store).is_err());
    }
    let mut store = [Data::Bool(true); 1];
    let fault = fill_cells(&GOOD, &mut store)
        .err()
        .ok_or("one entry short")?;
    assert_eq!(rt; fault.number(), 20);
    assert!(rt; store[0] == Data::Bool(true));
    let mut exact = [Data::Bool(true); 2];
    assert!(rt; fill_cells(&GOOD, &mut exact).is_ok());
    assert!(rt; (exact[0] == Data::Int(-2)) & (exact[1] == Data::Empty));
    Ok(())
}

#[test]
fn sheets(rt: HostRuntime) {
    let mut store = [Data::Bool(true); 3];
    let mut range = Range::empty();
    assert!(rt; read_sheet(&mut range, &GOOD, &mut store).is_ok());
    assert_eq!(rt; range.start(), Some((1, 2)));
    assert_eq!(rt; range.end(), Some((1, 3)));
    assert!(rt; range.text() == b"ok".as_slice());
    assert!(rt; range.get((0, 0)).copied() == Some(Data::Int(-2)));
    assert!(rt; range.get((0, 1)).copied() == Some(Data::Empty));
    let empty = [
        24, 0, 0, 0, 0, 0, 0, 0, 24, 0, 0, 0, 0, 0, 0, 0, 24, 0, 0, 0, 0, 0, 0, 0,
    ];
    let mut none = [Data::Empty; 0];
    assert!(rt; read_sheet(&mut range, &empty, &mut none).is_ok());
    assert!(rt; range.is_empty());
}

#[test]
fn refused_sheet(rt: HostRuntime) -> Result<(), Fail> {
    // the second cell has a float that is not finite: the first is written, and the range stays as it was
    let mut file = GOOD;
    file[49] = 2;
    file[56] = 0xf0;
    file[57] = 0x7f;
    let mut store = [Data::Bool(true); 2];
    let mut other = [Data::Bool(false); 2];
    let mut range = Range::empty();
    assert!(rt; read_sheet(&mut range, &GOOD, &mut other).is_ok());
    match read_sheet(&mut range, &file, &mut store) {
        Ok(()) => return Err(Fail::new("read")),
        Err(refused) => {
            assert_eq!(rt; refused.fault.number(), 19);
            assert!(rt; refused.store.len() == 2);
            assert!(rt;
                (refused.store[0] == Data::Int(-2)) & (refused.store[1] == Data::Bool(true))
            );
        }
    }
    assert!(rt; range.get((0, 0)).copied() == Some(Data::Int(-2)));
    Ok(())
}

#[test]
fn ranges_of_files(rt: HostRuntime) -> Result<(), Fail> {
    let mut store = [Data::Bool(true); 3];
    let range = worksheet_range(&GOOD, &mut store).ok().ok_or("refused")?;
    assert_eq!(rt; range.start(), Some((1, 2)));
    assert_eq!(rt; range.end(), Some((1, 3)));
    assert!(rt; range.text() == b"ok".as_slice());
    assert!(rt; range.get((0, 0)).copied() == Some(Data::Int(-2)));
    assert!(rt; range.get((0, 1)).copied() == Some(Data::Empty));
    let mut short = [Data::Bool(true); 1];
    match worksheet_range(&GOOD, &mut short) {
        Ok(_) => return Err(Fail::new("read")),
        Err(refused) => {
            assert_eq!(rt; refused.fault.number(), 20);
            assert!(rt; (refused.store.len() == 1) & (refused.store[0] == Data::Bool(true)));
        }
    }
    Ok(())
}

#[test]
fn errors_by_number(rt: HostRuntime) {
    assert!(rt; CellErrorType::try_from(0) == Ok(CellErrorType::Div0));
    assert!(rt; CellErrorType::try_from(1) == Ok(CellErrorType::NA));
    assert!(rt; CellErrorType::try_from(7) == Ok(CellErrorType::GettingData));
    assert!(rt; CellErrorType::try_from(8) == Err(UnknownErrorType(8)));
    assert!(rt; CellErrorType::try_from(u64::MAX) == Err(UnknownErrorType(u64::MAX)));
}

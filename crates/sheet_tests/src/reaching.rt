// Cells, rows and walks of a sheet of two rows and three columns, from row 3 and column 4 on.
use range::corners::Corners;
use range::sheet::Range;
use std::test::Fail;

const CORNERS: Corners = Corners {
    first_row: 3,
    first_column: 4,
    last_row: 4,
    last_column: 6,
};

#[test]
fn empty_sheet(rt: HostRuntime) {
    let range: Range<u8> = Range::empty();
    assert!(rt; range.get((0, 0)).is_none());
    assert!(rt; range.get_value((0, 0)).is_none());
    assert!(rt; range.row(0).is_none());
    assert_eq!(rt; range.get_size(), (0, 0));
    assert_eq!(rt; range.start(), None);
    assert_eq!(rt; range.end(), None);
    let mut rows = range.rows();
    assert_eq!(rt; rows.len(), 0);
    assert!(rt; rows.next().is_none());
    assert!(rt; rows.next_back().is_none());
    let mut cells = range.cells();
    assert!(rt; cells.next().is_none());
    assert!(rt; cells.next_back().is_none());
}

#[test]
fn by_number(rt: HostRuntime) -> Result<(), Fail> {
    let cells = [10u8, 11, 12, 20, 21, 22];
    let mut range = Range::empty();
    range.make(CORNERS, &cells, b"")?;
    assert_eq!(rt; range.width(), 3);
    assert_eq!(rt; range.height(), 2);
    // relative: row, column, and the cell, 0 for none, since an option in each row would be no plainer
    for (row, column, wanted) in [
        (0, 0, 10),
        (0, 2, 12),
        (0, 3, 0),
        (1, 0, 20),
        (1, 2, 22),
        (2, 0, 0),
        (5, 5, 0),
    ] {
        assert_eq!(rt; range.get((row, column)).copied().unwrap_or(0), wanted);
    }
    // by the sheet's own numbers
    for (row, column, wanted) in [
        (3, 4, 10),
        (3, 6, 12),
        (3, 7, 0),
        (4, 4, 20),
        (4, 6, 22),
        (5, 4, 0),
        (2, 4, 0),
        (3, 3, 0),
        (0, 0, 0),
    ] {
        assert_eq!(rt;
            range.get_value((row, column)).copied().unwrap_or(0),
            wanted
        );
    }
    assert!(rt; range.row(1).ok_or("no row")? == [20, 21, 22].as_slice());
    assert!(rt; range.row(2).is_none());
    Ok(())
}

#[test]
fn rows_from_both_ends(rt: HostRuntime) -> Result<(), Fail> {
    let cells = [10u8, 11, 12, 20, 21, 22, 30, 31, 32];
    let corners = Corners {
        first_row: 0,
        first_column: 0,
        last_row: 2,
        last_column: 2,
    };
    let mut range = Range::empty();
    range.make(corners, &cells, b"")?;
    let mut rows = range.rows();
    assert_eq!(rt; rows.len(), 3);
    assert!(rt; rows.next().ok_or("first")? == [10, 11, 12].as_slice());
    assert!(rt; rows.next_back().ok_or("last")? == [30, 31, 32].as_slice());
    assert_eq!(rt; rows.len(), 1);
    assert!(rt; rows.next().ok_or("second")? == [20, 21, 22].as_slice());
    assert!(rt; rows.next_back().is_none());
    assert!(rt; rows.next().is_none());
    assert_eq!(rt; rows.len(), 0);
    Ok(())
}

#[test]
fn cells_from_both_ends(rt: HostRuntime) -> Result<(), Fail> {
    let cells = [10u8, 11, 12, 20, 21, 22];
    let mut range = Range::empty();
    range.make(CORNERS, &cells, b"")?;
    let mut walk = range.cells();
    assert_eq!(rt; walk.len(), 6);
    assert_eq!(rt; walk.next(), Some((0, 0, &10)));
    assert_eq!(rt; walk.next_back(), Some((1, 2, &22)));
    assert_eq!(rt; walk.next(), Some((0, 1, &11)));
    assert_eq!(rt; walk.next(), Some((0, 2, &12)));
    assert_eq!(rt; walk.next_back(), Some((1, 1, &21)));
    assert_eq!(rt; walk.len(), 1);
    assert_eq!(rt; walk.next(), Some((1, 0, &20)));
    assert_eq!(rt; walk.next(), None);
    Ok(())
}

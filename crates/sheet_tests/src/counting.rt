// Walks that a caller counts and numbers. That the numbers fit is proved here without a word: each walk says how many
// items are left at most by a number at hand.
use cell::count::Count;
use range::cells::Cells;
use range::corners::Corners;
use range::rows::Rows;
use range::sheet::Range;
use range::used_cells::UsedCells;
use std::test::Fail;

const CORNERS: Corners = Corners {
    first_row: 7,
    first_column: 1,
    last_row: 8,
    last_column: 3,
};

const NONE: Count = Count(i32::MIN);

fn count_rows(rows: Rows<'_, Count>) -> usize {
    rows.count()
}

fn count_cells(cells: Cells<'_, Count>) -> usize {
    cells.count()
}

fn count_used(used: UsedCells<'_, Count>) -> usize {
    used.count()
}

/// The number of the last used cell, counted from 0; 0 where there is none, which compares with a bare number.
fn last_number(range: &Range<'_, Count>) -> usize {
    let mut last = 0;
    for (number, _) in range.used_cells().enumerate() {
        last = number;
    }
    last
}

#[test]
fn walks_are_counted(rt: HostRuntime) -> Result<(), Fail> {
    let cells = [NONE, Count(5), NONE, Count(0), NONE, Count(-1)];
    let mut range = Range::empty();
    range.make(CORNERS, &cells, b"")?;
    assert_eq!(rt; count_rows(range.rows()), 2);
    assert_eq!(rt; count_cells(range.cells()), 6);
    assert_eq!(rt; count_used(range.used_cells()), 3);
    assert_eq!(rt; last_number(&range), 2);
    let mut rows = range.rows();
    let _ = rows.next_back();
    assert_eq!(rt; count_rows(rows), 1);
    Ok(())
}

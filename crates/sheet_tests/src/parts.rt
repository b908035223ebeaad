// Parts copied into a store.
use questions::fault::Fault;
use range::corners::Corners;
use range::fault::RangeFault;
use range::sheet::Range;
use std::test::Fail;

const SHEET: Corners = Corners {
    first_row: 3,
    first_column: 4,
    last_row: 4,
    last_column: 6,
};

const AROUND: Corners = Corners {
    first_row: 2,
    first_column: 5,
    last_row: 4,
    last_column: 6,
};

#[test]
fn copied(rt: HostRuntime) -> Result<(), Fail> {
    let cells = [10u8, 11, 12, 20, 21, 22];
    let mut range = Range::empty();
    range.make(SHEET, &cells, b"")?;
    // the row above the sheet has the empty cell, and the entry behind the part keeps its contents
    let mut store = [9u8; 7];
    assert_eq!(rt; range.range_into(AROUND, 0, &mut store), Ok(6));
    assert!(rt; store == [0, 0, 11, 12, 21, 22, 9]);
    let mut apart = [9u8; 1];
    let far = Corners {
        first_row: 0,
        first_column: 0,
        last_row: 0,
        last_column: 0,
    };
    assert_eq!(rt; range.range_into(far, 7, &mut apart), Ok(1));
    assert!(rt; apart == [7]);
    Ok(())
}

#[test]
fn refused(rt: HostRuntime) -> Result<(), Fail> {
    let cells = [10u8, 11, 12, 20, 21, 22];
    let mut range = Range::empty();
    range.make(SHEET, &cells, b"")?;
    let turned = Corners {
        first_row: 1,
        first_column: 0,
        last_row: 0,
        last_column: 16384,
    };
    let wide = Corners {
        first_row: 0,
        first_column: 0,
        last_row: 0,
        last_column: 16384,
    };
    let mut store = [9u8; 5];
    assert_eq!(rt;
        range.range_into(turned, 0, &mut store),
        Err(RangeFault::Reversed)
    );
    assert_eq!(rt;
        range.range_into(wide, 0, &mut store),
        Err(RangeFault::PastLimits)
    );
    // one entry short
    assert_eq!(rt;
        range.range_into(AROUND, 0, &mut store),
        Err(RangeFault::StoreShort)
    );
    assert_eq!(rt; RangeFault::StoreShort.number(), 20);
    assert!(rt; store == [9, 9, 9, 9, 9]);
    Ok(())
}

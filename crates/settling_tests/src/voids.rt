// What voiding takes back, and when it refuses.
use crate::days::{
    FILLS, orders, passed_day, settle_and_book_three, settle_three, voided_while_out,
};
use crate::settles::{WIDE, account, accounts};
use engine::refusal::Refusal;
use ledger::{Account, PostRefused};
use ledgers::Table;
use market::records::{Book, Fills, Mark};
use market::refusal::Refusal as MarketRefusal;
use std::process::Abort;
use std::test::Fail;

// Fills that round to 3 steps sold and none bought: no buy can be cut, so beside R = 4 one step is left over.
const SHORT_FILLS: [u32; 3] = [49, 349, 48];

// At a positive and a negative price, with nothing left over and with a step too few.
#[test]
fn voiding_takes_everything_back(rt: HostRuntime) -> Result<(), Fail> {
    for (price, rounded, fills, steps, settled, booked) in [
        (5_000, 3, FILLS, 0, [100, 23, 120], 0),
        (5_000, 4, SHORT_FILLS, -1, [0, 3, 0], 5_000),
        (-100, 4, SHORT_FILLS, -1, [0, 3, 0], -100),
    ] {
        let (mut day, passed) = passed_day(15, price, rounded, &fills)?;
        let before = day.interval(1);
        let orders = orders(price);
        let book = Book::of_orders(&orders);
        let fills = Fills::of_orders(&fills);
        let mut sheet = [0; 3];
        let mut records = accounts();
        let kept = records;
        // Twice: what was voided can be settled again.
        for _ in 0..2 {
            let mut table = Table {
                records: &mut records,
            };
            assert_eq!(rt;
                settle_and_book_three(&rt, &passed, &mut day, book, fills, &mut sheet, &mut table),
                Ok(steps)
            );
            assert_eq!(rt; sheet, settled);
            assert_eq!(rt; records[1].balance, booked);
            let mut table = Table {
                records: &mut records,
            };
            assert_eq!(rt;
                passed.void(&mut day, book, &mut sheet, &mut table, 1),
                Ok(())
            );
            assert_eq!(rt; sheet, [0, 0, 0]);
            assert_eq!(rt; records, kept);
            assert_eq!(rt; day.interval(1), before);
            assert_eq!(rt; day.open_worth(), 0);
        }
    }
    Ok(())
}

// Refused with 3, and with 24 where the interval is unsettled, out or noted.
#[test]
fn only_a_closed_interval_is_voided(rt: HostRuntime) -> Result<(), Fail> {
    let (mut day, passed) = passed_day(15, 5_000, 3, &FILLS)?;
    let orders = orders(5_000);
    let book = Book::of_orders(&orders);
    let fills = Fills::of_orders(&FILLS);
    let mut sheet = [7; 3];
    let mut records = accounts();
    let mut table = Table {
        records: &mut records,
    };
    for interval in [-1, 0, 2] {
        assert_eq!(rt;
            passed.void(&mut day, book, &mut sheet, &mut table, interval),
            Err(Refusal::Market(MarketRefusal::NoInterval))
        );
    }
    assert_eq!(rt;
        passed.void(&mut day, book, &mut sheet, &mut table, 1),
        Err(Refusal::NotClosed)
    );
    assert_eq!(rt; sheet, [7, 7, 7]);
    assert_eq!(rt;
        voided_while_out(&rt, &passed, &mut day, book, fills, &mut sheet, &mut table),
        Err(Refusal::NotClosed)
    );
    assert_eq!(rt;
        day.interval(1).map(|record| record.mark),
        Some(Mark::Noted)
    );
    assert_eq!(rt;
        passed.void(&mut day, book, &mut sheet, &mut table, 1),
        Err(Refusal::NotClosed)
    );
    assert_eq!(rt; sheet, [100, 23, 120]);
    Ok(())
}

// A sheet or a memory that is too short, a record outside its bounds, and then a number above its quantity, at the lowest entry.
#[test]
fn what_the_sheet_must_hold(rt: HostRuntime) -> Result<(), Fail> {
    let (mut day, passed) = passed_day(15, 5_000, 3, &FILLS)?;
    let orders = orders(5_000);
    let book = Book::of_orders(&orders);
    let fills = Fills::of_orders(&FILLS);
    let mut sheet = [0; 3];
    let mut records = accounts();
    let mut table = Table {
        records: &mut records,
    };
    assert_eq!(rt;
        settle_and_book_three(&rt, &passed, &mut day, book, fills, &mut sheet, &mut table),
        Ok(0)
    );
    let short = Refusal::Market(MarketRefusal::Short);
    assert_eq!(rt;
        passed.void(&mut day, book, &mut sheet[..2], &mut table, 1),
        Err(short)
    );
    let fewer = Book::of_orders(&orders[..2]);
    assert_eq!(rt;
        passed.void(&mut day, fewer, &mut sheet, &mut table, 1),
        Err(short)
    );
    let mut spoiled = orders;
    spoiled[1].quantity = 0;
    let outside = Refusal::Market(MarketRefusal::OutsideBounds { entry: 2 });
    assert_eq!(rt;
        passed.void(
            &mut day,
            Book::of_orders(&spoiled),
            &mut sheet,
            &mut table,
            1
        ),
        Err(outside)
    );
    for (mut numbers, entry) in [
        ([101, 101, 121], 1),
        ([100, 101, 121], 2),
        ([100, 23, 121], 3),
    ] {
        let kept = numbers;
        let over = Refusal::Market(MarketRefusal::OverQuantity { entry });
        assert_eq!(rt;
            passed.void(&mut day, book, &mut numbers, &mut table, 1),
            Err(over)
        );
        assert_eq!(rt; numbers, kept);
    }
    assert_eq!(rt;
        day.interval(1).map(|record| record.mark),
        Some(Mark::Closed)
    );
    assert_eq!(rt;
        passed.void(&mut day, book, &mut sheet, &mut table, 1),
        Ok(())
    );
    Ok(())
}

// The accounts, of which one has bounds of 10 either way.
fn narrowed(number: u32) -> [Account; 5] {
    let mut records = accounts();
    for record in &mut records {
        if record.number == number {
            record.lower = -10;
            record.upper = 10;
        }
    }
    records
}

fn without_12() -> [Account; 5] {
    [
        account(0, WIDE),
        account(1, WIDE),
        account(11, WIDE),
        account(13, WIDE),
        account(14, WIDE),
    ]
}

// Settled and booked over wide accounts, an interval is voided over others that refuse a posting: everything is as it was. After that it
// is voided over the wide ones.
fn is_refused(
    rt: &impl Abort,
    fills: [u32; 3],
    rounded: i32,
    mut records: [Account; 5],
    refused: PostRefused,
) -> Result<(), Fail> {
    let (mut day, passed) = passed_day(15, 5_000, rounded, &fills)?;
    let orders = orders(5_000);
    let book = Book::of_orders(&orders);
    let fills = Fills::of_orders(&fills);
    let mut sheet = [0; 3];
    let mut wide = accounts();
    let mut table = Table { records: &mut wide };
    settle_and_book_three(rt, &passed, &mut day, book, fills, &mut sheet, &mut table)?;
    let (before, written, kept) = (day.interval(1), sheet, records);
    let mut narrow = Table {
        records: &mut records,
    };
    assert_eq!(rt;
        passed.void(&mut day, book, &mut sheet, &mut narrow, 1),
        Err(Refusal::Posting(refused))
    );
    assert_eq!(rt; (day.interval(1), sheet, records), (before, written, kept));
    assert_eq!(rt;
        passed.void(&mut day, book, &mut sheet, &mut table, 1),
        Ok(())
    );
    assert_eq!(rt; wide, accounts());
    Ok(())
}

// Refused at the first posting, which undoes booking, at a middle one and at the last, and for an account that is not open.
#[test]
fn refused_postings_are_taken_back(rt: HostRuntime) -> Result<(), Fail> {
    let bound = |account| PostRefused::OutOfBounds { account };
    for (fills, rounded, records, refused) in [
        (SHORT_FILLS, 4, narrowed(1), bound(1)),
        (FILLS, 3, narrowed(0), bound(0)),
        (FILLS, 3, narrowed(13), bound(13)),
        (FILLS, 3, narrowed(11), bound(11)),
        (FILLS, 3, without_12(), PostRefused::NotOpen { account: 12 }),
    ] {
        is_refused(&rt, fills, rounded, records, refused)?;
    }
    Ok(())
}

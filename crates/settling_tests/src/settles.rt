// What settling leaves, accepted and refused.
use crate::days::{FILLS, offered_elsewhere, orders, passed_day, settle_three};
use engine::day::Day;
use engine::refusal::Refusal;
use ledger::{Account, PostRefused};
use ledgers::Table;
use market::records::{Book, Fills};
use market::refusal::Refusal as MarketRefusal;
use std::test::Fail;

pub(crate) const WIDE: i64 = 10_000_000;

pub(crate) fn account(number: u32, upper: i64) -> Account {
    Account {
        number,
        balance: 0,
        lower: -WIDE,
        upper,
    }
}

pub(crate) fn accounts() -> [Account; 5] {
    [
        account(0, WIDE),
        account(1, WIDE),
        account(11, WIDE),
        account(12, WIDE),
        account(13, WIDE),
    ]
}

// Balances of accounts 0, 11, 12 and 13 after settling, at each length of an interval and at a negative price.
#[test]
fn amounts(rt: HostRuntime) -> Result<(), Fail> {
    for (minutes, price, exchange, first, second, buyer) in [
        (15, 5_000, -15_000, 500_000, 115_000, -600_000),
        (30, 5_000, -30_000, 1_000_000, 230_000, -1_200_000),
        (60, 5_000, -60_000, 2_000_000, 460_000, -2_400_000),
        (15, -100, 300, -10_000, -2_300, 12_000),
    ] {
        let (mut day, passed) = passed_day(minutes, price, 3, &FILLS)?;
        let mut sheet = [7; 3];
        let mut records = accounts();
        let mut table = Table {
            records: &mut records,
        };
        let orders = orders(price);
        let book = Book::of_orders(&orders);
        let fills = Fills::of_orders(&FILLS);
        assert_eq!(rt;
            settle_three(&passed, &mut day, book, fills, &mut sheet, &mut table),
            Ok(0)
        );
        assert_eq!(rt; sheet, [100, 23, 120]);
        assert_eq!(rt; (records[0].balance, records[2].balance), (exchange, first));
        assert_eq!(rt; (records[3].balance, records[4].balance), (second, buyer));
    }
    Ok(())
}

// Refused at the first, a middle and the last posting, and for an account that is not open: everything is as it was.
#[test]
fn refused_postings(rt: HostRuntime) -> Result<(), Fail> {
    let narrowed = |at: usize, number: u32| {
        let mut records = accounts();
        records[at] = Account {
            number,
            balance: 0,
            lower: -10,
            upper: 10,
        };
        records
    };
    let without_12 = [
        account(0, WIDE),
        account(1, WIDE),
        account(11, WIDE),
        account(13, WIDE),
        account(14, WIDE),
    ];
    for (mut records, refused) in [
        (narrowed(2, 11), PostRefused::OutOfBounds { account: 11 }),
        (narrowed(4, 13), PostRefused::OutOfBounds { account: 13 }),
        (narrowed(0, 0), PostRefused::OutOfBounds { account: 0 }),
        (without_12, PostRefused::NotOpen { account: 12 }),
    ] {
        let (mut day, passed) = passed_day(15, 5_000, 3, &FILLS)?;
        let before = day.interval(1);
        let mut sheet = [7; 3];
        let kept = records;
        let mut table = Table {
            records: &mut records,
        };
        let orders = orders(5_000);
        let book = Book::of_orders(&orders);
        let fills = Fills::of_orders(&FILLS);
        assert_eq!(rt;
            settle_three(&passed, &mut day, book, fills, &mut sheet, &mut table),
            Err(Refusal::Posting(refused))
        );
        assert_eq!(rt; sheet, [7, 7, 7]);
        assert_eq!(rt; records, kept);
        assert_eq!(rt; day.interval(1), before);
    }
    Ok(())
}

// The buys round up to one step too many: one of them is cut, and an order settled at 0 steps is not posted.
#[test]
fn a_negative_gap_cuts_buys(rt: HostRuntime) -> Result<(), Fail> {
    let fills = [10_000, 0, 9_650];
    let (mut day, passed) = passed_day(15, 5_000, 4, &fills)?;
    let mut sheet = [7; 3];
    let mut records = accounts();
    let mut table = Table {
        records: &mut records,
    };
    let orders = orders(5_000);
    let book = Book::of_orders(&orders);
    let fills = Fills::of_orders(&fills);
    assert_eq!(rt;
        settle_three(&passed, &mut day, book, fills, &mut sheet, &mut table),
        Ok(0)
    );
    assert_eq!(rt; sheet, [100, 0, 96]);
    assert_eq!(rt;
        (records[0].balance, records[3].balance, records[4].balance),
        (-20_000, 0, -480_000)
    );
    Ok(())
}

#[test]
fn a_foreign_remainder_is_given_back(rt: HostRuntime) -> Result<(), Fail> {
    let (mut day, passed) = passed_day(15, 5_000, 3, &FILLS)?;
    let (mut other, _) = passed_day(15, 5_000, 3, &FILLS)?;
    let mut records = accounts();
    let mut table = Table {
        records: &mut records,
    };
    assert_eq!(rt;
        offered_elsewhere(
            &passed,
            &mut day,
            &mut other,
            5_000,
            &mut [0; 3],
            &mut table,
        )?,
        (22, 22)
    );
    assert_eq!(rt; day.open_worth(), 0);
    Ok(())
}

// What taking up of interval 0 answers. A remainder would be let go here: the check finds that none can come of it.
fn taken_up_at_0(day: &mut Day) -> Result<i32, Refusal> {
    match day.take_up(0) {
        Ok(held) => Ok(held.steps()),
        Err(refusal) => Err(refusal),
    }
}

#[test]
fn where_there_is_no_remainder_none_is_let_go(rt: HostRuntime) -> Result<(), Fail> {
    let (mut day, _passed) = passed_day(60, 40, 3, &FILLS)?;
    assert_eq!(rt;
        taken_up_at_0(&mut day),
        Err(Refusal::Market(MarketRefusal::NoInterval))
    );
    Ok(())
}

// A block over several intervals, settled in each of them.
use crate::days::{passed, settle_and_book, settle_and_note};
use cuts::candidates::{BlockCandidate, Lists, OrderCandidate};
use engine::book::Passed;
use engine::book::calls::start;
use engine::day::Day;
use engine::refusal::Refusal;
use entries::Work;
use ledger::{Account, Accounts};
use ledgers::Table;
use market::records::{Block, Book, Fills, Side};
use std::test::Fail;

const BLOCK: Block = Block {
    side: Side::Sell,
    first: 1,
    last: 2,
    limit: 100,
    quantity: 10,
    least: 50,
    stamp: 0,
    account: 20,
};

// The block as a book, and the paper that fills it.
const BOOK: Book<'static> = Book {
    orders: &[],
    blocks: &[BLOCK],
};

const FILLS: Fills<'static> = Fills {
    orders: &[],
    blocks: &[1_000],
};

fn passed_block() -> Result<(Day, Passed), Fail> {
    let (mut day, mut book) = start(60, 3)?;
    book.terms(&mut day, 1, 150, 1_000, 10)?;
    book.terms(&mut day, 2, 50, 1_000, 10)?;
    let mut memory = [BLOCK];
    book.enter_block(&day, &mut memory, BLOCK)?;
    let entered = Book {
        orders: &[],
        blocks: &memory,
    };
    let passed = passed(book.close(), &day, entered, FILLS)?;
    Ok((day, passed))
}

#[test]
fn a_block_is_settled_in_each_of_its_intervals(rt: HostRuntime) -> Result<(), Fail> {
    let (mut day, passed) = passed_block()?;
    let mut sheet = [7; 3];
    let exchange = Account {
        number: 0,
        balance: 0,
        lower: -1_000_000,
        upper: 1_000_000,
    };
    let mut records = [
        exchange,
        Account {
            number: 20,
            ..exchange
        },
    ];
    let mut table = Table {
        records: &mut records,
    };
    let lists = Lists {
        orders: &mut [OrderCandidate::BLANK; 1],
        blocks: &mut [BlockCandidate::BLANK; 1],
    };
    let mut work = Work {
        numbers: &mut [0; 1],
        lists,
    };
    assert_eq!(rt;
        settle_and_note(
            &passed, &mut day, BOOK, FILLS, &mut sheet, &mut work, &mut table, 2
        ),
        Ok(0)
    );
    assert_eq!(rt; sheet, [7, 10, 7]);
    assert_eq!(rt;
        settle_and_note(
            &passed, &mut day, BOOK, FILLS, &mut sheet, &mut work, &mut table, 1
        ),
        Ok(0)
    );
    assert_eq!(rt; sheet, [10, 10, 7]);
    assert_eq!(rt;
        settle_and_note(
            &passed, &mut day, BOOK, FILLS, &mut sheet, &mut work, &mut table, 1
        ),
        Err(Refusal::NotUnsettled)
    );
    assert_eq!(rt; (records[0].balance, records[1].balance), (-8_000, 8_000));
    Ok(())
}

// Voided in one of its intervals, a block keeps its number and its amount in the other, until that is voided too.
#[test]
fn a_block_is_voided_in_one_of_its_intervals(rt: HostRuntime) -> Result<(), Fail> {
    let (mut day, passed) = passed_block()?;
    let mut sheet = [7; 3];
    let exchange = Account {
        number: 0,
        balance: 0,
        lower: -1_000_000,
        upper: 1_000_000,
    };
    let mut records = [
        exchange,
        Account {
            number: 1,
            ..exchange
        },
        Account {
            number: 20,
            ..exchange
        },
    ];
    let mut table = Table {
        records: &mut records,
    };
    let lists = Lists {
        orders: &mut [OrderCandidate::BLANK; 1],
        blocks: &mut [BlockCandidate::BLANK; 1],
    };
    let mut work = Work {
        numbers: &mut [0; 1],
        lists,
    };
    for interval in [1, 2] {
        assert_eq!(rt;
            settle_and_book(
                &rt, &passed, &mut day, BOOK, FILLS, &mut sheet, &mut work, &mut table, interval
            ),
            Ok(0)
        );
    }
    assert_eq!(rt; sheet, [10, 10, 7]);
    assert_eq!(rt; table.balance(20), Some(8_000));
    for (interval, left, balance) in [(1, [0, 10, 7], 2_000), (2, [0, 0, 7], 0)] {
        assert_eq!(rt;
            passed.void(&mut day, BOOK, &mut sheet, &mut table, interval),
            Ok(())
        );
        assert_eq!(rt; sheet, left);
        assert_eq!(rt; table.balance(20), Some(balance));
        assert_eq!(rt; table.balance(0), Some(-balance));
    }
    Ok(())
}

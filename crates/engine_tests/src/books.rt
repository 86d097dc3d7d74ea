// The calls of the book: what is entered, what is refused, and a book that is full.
use engine::book::calls::start;
use engine::book::{Closed, Open};
use engine::day::Day;
use market::records::{Block, Book, Fills, Interval, Mark, Market, Order, Side};
use market::refusal::Refusal;
use std::test::Fail;

const PLAIN: Order = Order {
    side: Side::Buy,
    interval: 1,
    limit: 400_000,
    quantity: 10_000,
    market: Market::Spot,
    stamp: 0,
    account: 65_535,
};

const EVERYWHERE: Block = Block {
    side: Side::Buy,
    first: 1,
    last: 100,
    limit: 400_000,
    quantity: 10_000,
    least: 100,
    stamp: 0,
    account: 65_535,
};

#[test]
fn terms_change_one_record(rt: HostRuntime) -> Result<(), Fail> {
    let (mut day, book) = start(15, 2)?;
    let fresh = Interval {
        price: 0,
        net: 0,
        rounded: 0,
        mark: Mark::Unsettled,
        remainder: 0,
    };
    book.terms(&mut day, 2, -7, 301, 3)?;
    assert_eq!(rt; day.interval(1), Some(fresh));
    assert_eq!(rt;
        day.interval(2),
        Some(Interval {
            price: -7,
            net: 301,
            rounded: 3,
            ..fresh
        })
    );
    assert_eq!(rt; book.terms(&mut day, 3, 0, 0, 0), Err(Refusal::NoInterval));
    assert_eq!(rt; book.terms(&mut day, 1, 400_001, 0, 0), Err(Refusal::Price));
    assert_eq!(rt;
        book.terms(&mut day, 1, 0, 300, 4),
        Err(Refusal::NetPosition)
    );
    assert_eq!(rt; day.interval(1), Some(fresh));
    assert_eq!(rt; day.interval(0), None);
    assert_eq!(rt; day.interval(3), None);
    assert_eq!(rt; (day.minutes(), day.count()), (15, 2));
    Ok(())
}

#[test]
fn a_full_memory_refuses_last(rt: HostRuntime) -> Result<(), Fail> {
    let (day, mut book) = start(60, 1)?;
    let mut memory = [PLAIN; 2];
    let other = Order {
        side: Side::Sell,
        limit: 5,
        quantity: 1,
        market: Market::Derivative,
        stamp: 9,
        account: 2,
        ..PLAIN
    };
    assert_eq!(rt; book.enter_order(&day, &mut memory, other), Ok(1));
    assert_eq!(rt; memory, [other, PLAIN]);
    assert_eq!(rt; book.enter_order(&day, &mut memory, other), Ok(2));
    assert_eq!(rt;
        book.enter_order(&day, &mut memory, PLAIN),
        Err(Refusal::Full)
    );
    assert_eq!(rt;
        book.enter_order(
            &day,
            &mut memory,
            Order {
                account: 1,
                ..PLAIN
            },
        ),
        Err(Refusal::Account)
    );
    assert_eq!(rt; memory, [other, other]);
    Ok(())
}

#[test]
fn a_memory_shorter_than_its_count_is_refused(rt: HostRuntime) -> Result<(), Fail> {
    let (day, mut book) = start(60, 1)?;
    let mut memory = [PLAIN; 2];
    book.enter_order(&day, &mut memory, PLAIN)?;
    book.enter_order(&day, &mut memory, PLAIN)?;
    let mut closed = book.close();
    // A memory that is too short, then fills that are too few and too many.
    for (held, filled) in [(1, 2), (2, 1), (2, 3)] {
        let book = Book::of_orders(&memory[0..held]);
        let fills = Fills::of_orders(&[0; 3][0..filled]);
        let Err(fail) = closed.judge(&day, book, fills) else {
            return Err(Fail::new("a paper of other lengths passed"));
        };
        assert_eq!(rt; fail.refusal, Refusal::Short);
        closed = fail.book;
    }
    Ok(())
}

// A day of 100 intervals at the lowest price, with the net positions of a full book of purchases.
fn full_day() -> Result<(Day, Open), Refusal> {
    let (mut day, book) = start(15, 100)?;
    book.terms(&mut day, 1, -50_000, -1_088_000_000, -10_880_000)?;
    for interval in 2..101 {
        book.terms(&mut day, interval, -50_000, -64_000_000, -640_000)?;
    }
    Ok((day, book))
}

fn fill_book(
    day: &Day,
    mut book: Open,
    orders: &mut [Order],
    blocks: &mut [Block],
) -> Result<Closed, Fail> {
    for _ in 0..1024 {
        book.enter_order(day, orders, PLAIN)?;
    }
    for _ in 0..64 {
        book.enter_block(day, blocks, EVERYWHERE)?;
    }
    match book.enter_order(day, orders, PLAIN) {
        Err(Refusal::Full) => Ok(book.close()),
        _ => Err(Fail::new("a full book takes no more orders")),
    }
}

#[test]
fn a_full_book_at_the_extremes(rt: HostRuntime) -> Result<(), Fail> {
    let (day, book) = full_day()?;
    let mut orders = [PLAIN; 1025];
    let mut blocks = [EVERYWHERE; 65];
    let closed = fill_book(&day, book, &mut orders, &mut blocks)?;
    let book = Book {
        orders: &orders,
        blocks: &blocks,
    };
    let fills = Fills {
        orders: &[1_000_000; 1024],
        blocks: &[1_000_000; 64],
    };
    let Ok(pass) = closed.judge(&day, book, fills) else {
        return Err(Fail::new("the full book is refused"));
    };
    assert_eq!(rt; pass.welfare, 2_969_600_000_000_000);
    Ok(())
}

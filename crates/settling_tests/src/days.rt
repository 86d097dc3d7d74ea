// A day of one interval with three orders at its price, and a paper on it that passes.
use cuts::candidates::{BlockCandidate, Lists, OrderCandidate};
use engine::book::calls::start;
use engine::book::{Closed, Open, Pass, Passed};
use engine::day::Day;
use engine::refusal::Refusal;
use engine::remainder::Returned;
use entries::Work;
use ledger::Ledger;
use market::records::{Book, Fills, Market, Order, Side};
use market::refusal::Refusal as MarketRefusal;
use std::process::Abort;
use std::test::Fail;

pub(crate) const FILLS: [u32; 3] = [10_000, 2_350, 12_000];

pub(crate) fn orders(price: i32) -> [Order; 3] {
    let sell = Order {
        side: Side::Sell,
        interval: 1,
        limit: price,
        quantity: 100,
        market: Market::Spot,
        stamp: 0,
        account: 11,
    };
    [
        sell,
        Order {
            account: 12,
            ..sell
        },
        Order {
            side: Side::Buy,
            quantity: 120,
            account: 13,
            ..sell
        },
    ]
}

fn enter_all(
    day: &Day,
    mut book: Open,
    memory: &mut [Order],
    orders: &[Order],
) -> Result<Closed, MarketRefusal> {
    for order in orders {
        book.enter_order(day, memory, *order)?;
    }
    Ok(book.close())
}

/// The book on which a paper passes.
pub(crate) fn passed(
    closed: Closed,
    day: &Day,
    book: Book<'_>,
    fills: Fills<'_>,
) -> Result<Passed, Fail> {
    match closed.judge(day, book, fills) {
        Ok(Pass { book, .. }) => Ok(book),
        Err(_) => Err(Fail::new("the paper should pass")),
    }
}

/// The day with its net position of 350 thousandths rounded to so many steps, and its passed book.
pub(crate) fn passed_day(
    minutes: i32,
    price: i32,
    rounded: i32,
    fills: &[u32],
) -> Result<(Day, Passed), Fail> {
    let (mut day, book) = start(minutes, 1)?;
    book.terms(&mut day, 1, price, 350, rounded)?;
    let mut memory = orders(price);
    let closed = enter_all(&day, book, &mut memory, &orders(price))?;
    let passed = passed(
        closed,
        &day,
        Book::of_orders(&memory),
        Fills::of_orders(fills),
    )?;
    Ok((day, passed))
}

/// Settles an interval, and notes its remainder, which is never refused: it was just handed over.
pub(crate) fn settle_and_note<L: Ledger>(
    passed: &Passed,
    day: &mut Day,
    book: Book<'_>,
    fills: Fills<'_>,
    sheet: &mut [u32],
    work: &mut Work<'_>,
    ledger: &mut L,
    interval: i32,
) -> Result<i32, Refusal> {
    let remainder = passed.settle(day, book, fills, sheet, work, ledger, interval)?;
    let steps = remainder.steps();
    match day.note(remainder) {
        Ok(()) => Ok(steps),
        Err(_) => unreachable(),
    }
}

/// Settles an interval, and books its remainder over accounts that take it.
pub(crate) fn settle_and_book<L: Ledger>(
    rt: &impl Abort,
    passed: &Passed,
    day: &mut Day,
    book: Book<'_>,
    fills: Fills<'_>,
    sheet: &mut [u32],
    work: &mut Work<'_>,
    ledger: &mut L,
    interval: i32,
) -> Result<i32, Refusal> {
    let remainder = passed.settle(day, book, fills, sheet, work, ledger, interval)?;
    let steps = remainder.steps();
    match day.book(ledger, remainder) {
        Ok(()) => Ok(steps),
        Err(_) => panic!(rt; "the accounts should take the remainder"),
    }
}

// The working slices of three entries are built where they are lent, here and below: arrays and what is lent of them cannot be handed out
// together, and the libraries have no heap.
/// Settles the interval of a day with three entries, and notes its remainder.
pub(crate) fn settle_three<L: Ledger>(
    passed: &Passed,
    day: &mut Day,
    book: Book<'_>,
    fills: Fills<'_>,
    sheet: &mut [u32],
    ledger: &mut L,
) -> Result<i32, Refusal> {
    let lists = Lists {
        orders: &mut [OrderCandidate::BLANK; 3],
        blocks: &mut [BlockCandidate::BLANK; 3],
    };
    let mut work = Work {
        numbers: &mut [0; 3],
        lists,
    };
    settle_and_note(passed, day, book, fills, sheet, &mut work, ledger, 1)
}

/// Settles the interval of a day with three entries, and books its remainder.
pub(crate) fn settle_and_book_three<L: Ledger>(
    rt: &impl Abort,
    passed: &Passed,
    day: &mut Day,
    book: Book<'_>,
    fills: Fills<'_>,
    sheet: &mut [u32],
    ledger: &mut L,
) -> Result<i32, Refusal> {
    let lists = Lists {
        orders: &mut [OrderCandidate::BLANK; 3],
        blocks: &mut [BlockCandidate::BLANK; 3],
    };
    let mut work = Work {
        numbers: &mut [0; 3],
        lists,
    };
    settle_and_book(rt, passed, day, book, fills, sheet, &mut work, ledger, 1)
}

/// What voiding the interval of a day with three entries answers while its remainder is out. Then that is noted.
pub(crate) fn voided_while_out<L: Ledger>(
    rt: &impl Abort,
    passed: &Passed,
    day: &mut Day,
    book: Book<'_>,
    fills: Fills<'_>,
    sheet: &mut [u32],
    ledger: &mut L,
) -> Result<(), Refusal> {
    let lists = Lists {
        orders: &mut [OrderCandidate::BLANK; 3],
        blocks: &mut [BlockCandidate::BLANK; 3],
    };
    let mut work = Work {
        numbers: &mut [0; 3],
        lists,
    };
    let remainder = passed.settle(day, book, fills, sheet, &mut work, ledger, 1)?;
    let answer = passed.void(day, book, sheet, ledger, 1);
    match day.note(remainder) {
        Ok(()) => answer,
        Err(_) => panic!(rt; "what is out should be noted"),
    }
}

/// What a day that knows nothing of a remainder answers to it: the number with which it refuses to book it, and to note it. The
/// remainder is that of another day, and is noted there at the end.
pub(crate) fn offered_elsewhere<L: Ledger>(
    passed: &Passed,
    day: &mut Day,
    other: &mut Day,
    price: i32,
    sheet: &mut [u32],
    ledger: &mut L,
) -> Result<(u32, u32), Fail> {
    let orders = orders(price);
    let book = Book::of_orders(&orders);
    let fills = Fills::of_orders(&FILLS);
    let lists = Lists {
        orders: &mut [OrderCandidate::BLANK; 3],
        blocks: &mut [BlockCandidate::BLANK; 3],
    };
    let mut work = Work {
        numbers: &mut [0; 3],
        lists,
    };
    let remainder = passed.settle(day, book, fills, sheet, &mut work, ledger, 1)?;
    let Err(returned) = other.book(ledger, remainder) else {
        return Err(Fail::new("the other day should not book it"));
    };
    let Returned {
        refusal: booking,
        remainder,
    } = returned;
    let Err(returned) = other.note(remainder) else {
        return Err(Fail::new("the other day should not note it"));
    };
    let Returned {
        refusal: noting,
        remainder,
    } = returned;
    match day.note(remainder) {
        Ok(()) => Ok((booking.number(), noting.number())),
        Err(_) => unreachable(),
    }
}

// A worked day: it is started, its book is filled and closed, two papers on it are judged, and the one that passes is cut to whole
// steps of 0.1 MW. Then come accounts to post to, and last a run of the settling calls on another day.
#![tactic(auto)]

use accounts::show_accounts;
use anyhow::anyhow;
use cutting::show_cuts;
use engine::book::calls::start;
use engine::book::{Closed, Fail, Open, Pass, Passed};
use engine::day::Day;
use market::records::{Book, Fills, Market, Order, Side};
use playing::show_run;
use settling::show_settling;

mod accounts;
mod cutting;
mod playing;
mod settling;

const PRICE: i32 = 5_000;

const NET: i32 = 350;

const ROUNDED: i32 = 3;

// The orders of the day, in the order in which they are entered.
const BOOK: [Order; 3] = [
    Order {
        side: Side::Sell,
        interval: 1,
        limit: 4_000,
        quantity: 100,
        market: Market::Spot,
        stamp: 100,
        account: 11,
    },
    Order {
        side: Side::Sell,
        interval: 1,
        limit: 5_000,
        quantity: 50,
        market: Market::Spot,
        stamp: 101,
        account: 12,
    },
    Order {
        side: Side::Buy,
        interval: 1,
        limit: 6_000,
        quantity: 120,
        market: Market::Spot,
        stamp: 102,
        account: 13,
    },
];

// The papers: one fill for each order, in thousandths of a MW. The first leaves the cheapest order short.
const FIRST_PAPER: [u32; 3] = [9_000, 3_350, 12_000];

const SECOND_PAPER: [u32; 3] = [10_000, 2_350, 12_000];

fn enter_book(
    rt: &HostRuntime,
    day: &Day,
    book: &mut Open,
    memory: &mut [Order],
) -> anyhow::Result<()> {
    for order in BOOK {
        let entry = book.enter_order(day, memory, order)?;
        let Order {
            side,
            quantity,
            limit,
            account,
            ..
        } = order;
        println!(rt;
            "Entry {entry}: {side} {quantity} steps of 0.1 MW, limit {limit} cents per MWh, account {account}."
        )?;
    }
    Ok(())
}

fn judge(
    rt: &HostRuntime,
    closed: Closed,
    day: &Day,
    book: Book<'_>,
    fills: Fills<'_>,
) -> anyhow::Result<Result<Passed, Closed>> {
    let filled = fills.orders;
    println!(rt; "A paper is judged, with these fills in thousandths of a MW: {filled:?}.")?;
    match closed.judge(day, book, fills) {
        Ok(Pass { book, welfare }) => {
            println!(rt; "It passes with welfare {welfare}.")?;
            Ok(Ok(book))
        }
        Err(Fail { refusal, book }) => {
            println!(rt; "It is refused with {refusal}.")?;
            Ok(Err(book))
        }
    }
}

fn run(rt: &HostRuntime) -> anyhow::Result<()> {
    let (mut day, mut book) = start(15, 1)?;
    println!(rt; "A day of 1 interval of 15 minutes is started.")?;
    book.terms(&mut day, 1, PRICE, NET, ROUNDED)?;
    println!(rt;
        "Interval 1: price {PRICE} cents per MWh, net position {NET} thousandths of a MW, rounded to {ROUNDED} steps of 0.1 MW."
    )?;
    let mut memory = [BOOK[0]; 3];
    enter_book(rt, &day, &mut book, &mut memory)?;
    let closed = book.close();
    println!(rt; "The book is closed.")?;
    let book = Book::of_orders(&memory);
    let first = Fills::of_orders(&FIRST_PAPER);
    let Err(closed) = judge(rt, closed, &day, book, first)? else {
        return Err(anyhow!("the first paper should have been refused"));
    };
    let fills = Fills::of_orders(&SECOND_PAPER);
    let second = judge(rt, closed, &day, book, fills)?;
    show_cuts(rt, book, fills, ROUNDED)?;
    show_accounts(rt)?;
    let Ok(passed) = second else {
        return Err(anyhow!("the second paper should have passed"));
    };
    show_settling(rt, &passed, &mut day, book, fills)?;
    show_run(rt)
}

fn main(rt: HostRuntime) -> anyhow::Result<()> {
    run(&rt)
}

// The verdict at the edges of each rule.
use market::records::{Block, Book, Fills, Interval, Mark, Market, Order, Side};
use market::refusal::Refusal;
use verdict::verdict;

const WIDEST: [i32; 2] = [i32::MIN, i32::MAX];

fn interval(price: i32, net: i32) -> Interval {
    Interval {
        price,
        net,
        rounded: 0,
        mark: Mark::Unsettled,
        remainder: 0,
    }
}

fn order(side: Side, limit: i32, quantity: i32) -> Order {
    Order {
        side,
        interval: 1,
        limit,
        quantity,
        market: Market::Spot,
        stamp: 0,
        account: 2,
    }
}

fn block(side: Side, first: i32, last: i32, limit: i32, quantity: i32, least: i32) -> Block {
    Block {
        side,
        first,
        last,
        limit,
        quantity,
        least,
        stamp: 0,
        account: 2,
    }
}

// The welfare of a paper, or the number and the place of its refusal.
type Answer = Result<i64, (u32, u32)>;

fn answer(
    day: &[Interval],
    orders: &[Order],
    order_fills: &[u32],
    blocks: &[Block],
    block_fills: &[u32],
) -> Answer {
    let book = Book { orders, blocks };
    let fills = Fills {
        orders: order_fills,
        blocks: block_fills,
    };
    verdict(day, book, fills).map_err(|refusal| (refusal.number(), refusal.place()))
}

// The number of a refusal, and 0 for none: a column of numbers reads plainer in a table than one of `Some` and `None`.
fn number(answer: Answer) -> u32 {
    answer.err().map_or(0, |(number, _)| number)
}

#[test]
fn order_prices(rt: HostRuntime) {
    for (side, price, fill, net, refused) in [
        (Side::Sell, 5_001, 10_000, 10_000, 0),
        (Side::Sell, 5_001, 9_999, 9_999, 15),
        (Side::Sell, 4_999, 0, 0, 0),
        (Side::Sell, 4_999, 1, 1, 14),
        (Side::Sell, 5_000, 1, 1, 0),
        (Side::Sell, 5_000, 10_000, 10_000, 0),
        (Side::Sell, 5_000, 10_001, 10_001, 13),
        (Side::Buy, 4_999, 10_000, -10_000, 0),
        (Side::Buy, 4_999, 9_999, -9_999, 15),
        (Side::Buy, 5_001, 0, 0, 0),
        (Side::Buy, 5_001, 1, -1, 14),
        (Side::Buy, 5_000, 1, -1, 0),
    ] {
        let found = answer(
            &[interval(price, net)],
            &[order(side, 5_000, 100)],
            &[fill],
            &[],
            &[],
        );
        assert_eq!(rt; number(found), refused);
    }
}

#[test]
fn block_percentages(rt: HostRuntime) {
    for (fill, refused) in [(349, 16), (350, 0), (0, 0), (1_000, 0), (1_001, 13)] {
        let found = answer(
            &[interval(0, fill)],
            &[],
            &[],
            &[block(Side::Sell, 1, 1, 0, 10, 35)],
            &[fill as u32],
        );
        assert_eq!(rt; number(found), refused);
    }
}

#[test]
fn block_prices(rt: HostRuntime) {
    for (side, second, expected) in [
        (Side::Sell, 4_100, Ok(-8_000_000)),
        (Side::Sell, 4_099, Err((17, 1))),
        (Side::Buy, 4_100, Ok(8_000_000)),
        (Side::Buy, 4_101, Err((17, 1))),
    ] {
        let net = match side {
            Side::Sell => 1_000,
            Side::Buy => -1_000,
        };
        let day = [interval(3_900, net), interval(second, net)];
        let found = answer(
            &day,
            &[],
            &[],
            &[block(side, 1, 2, 4_000, 10, 35)],
            &[1_000],
        );
        assert_eq!(rt; found, expected);
    }
}

#[test]
fn first_fault(rt: HostRuntime) {
    let day = [interval(5_000, 350)];
    let orders = [
        order(Side::Sell, 4_000, 100),
        order(Side::Sell, 5_000, 50),
        order(Side::Buy, 6_000, 120),
    ];
    for (fills, expected) in [
        ([10_000, 2_350, 12_000], Ok(20_250_000)),
        ([9_000, 3_350, 12_000], Err((15, 1))),
        ([10_000, 2_350, 11_999], Err((15, 3))),
        ([10_000, 2_351, 12_000], Err((18, 1))),
        ([9_000, 5_001, 12_001], Err((13, 2))),
        ([9_000, u32::MAX, u32::MAX], Err((13, 2))),
    ] {
        assert_eq!(rt; answer(&day, &orders, &fills, &[], &[]), expected);
    }
    assert_eq!(rt;
        answer(&day, &orders, &[10_000, 2_350], &[], &[]),
        Err((11, 0))
    );
    assert_eq!(rt;
        answer(&day, &orders, &[10_000, 2_350, 12_000, 0], &[], &[]),
        Err((11, 0))
    );
    assert_eq!(rt;
        answer(&day, &orders, &[10_000, 2_350, 12_000], &[], &[0]),
        Err((11, 0))
    );
}

// Two orders that fill each other, and two blocks after them.
fn four_entries(third: Block, fourth: Block, fills: &[u32]) -> Answer {
    let day = [interval(0, 0), interval(0, 1)];
    let orders = [order(Side::Sell, 0, 1), order(Side::Buy, 0, 1)];
    answer(&day, &orders, &[100, 100], &[third, fourth], fills)
}

#[test]
fn entries_count_on_after_the_orders(rt: HostRuntime) {
    let good = block(Side::Sell, 1, 2, 0, 10, 35);
    assert_eq!(rt;
        four_entries(good, block(Side::Sell, 1, 2, 0, 0, 35), &[0, 0]),
        Err((12, 4))
    );
    assert_eq!(rt; four_entries(good, good, &[0, 1_001]), Err((13, 4)));
    assert_eq!(rt; four_entries(good, good, &[349, 0]), Err((16, 3)));
    assert_eq!(rt;
        four_entries(good, block(Side::Sell, 1, 2, 1, 10, 35), &[0, 350]),
        Err((17, 4))
    );
    assert_eq!(rt; four_entries(good, good, &[0, 0]), Err((18, 2)));
}

#[test]
fn widest_records(rt: HostRuntime) {
    for extreme in WIDEST {
        let day = [interval(extreme, extreme)];
        let lawful = order(Side::Sell, 0, 1);
        let wide = Order {
            interval: extreme,
            stamp: extreme,
            account: extreme,
            ..order(Side::Buy, extreme, extreme)
        };
        assert_eq!(rt;
            answer(&day, &[lawful, wide], &[0, u32::MAX], &[], &[]),
            Err((12, 2))
        );
        let broad = block(Side::Buy, extreme, extreme, extreme, extreme, extreme);
        assert_eq!(rt;
            answer(&day, &[lawful], &[0], &[broad], &[u32::MAX]),
            Err((12, 2))
        );
        let empty = answer(&day, &[], &[], &[], &[]);
        assert_eq!(rt; empty, Err((18, 1)));
    }
}

// Limits times fills, purchases less sales.
fn worth(orders: &[Order], fills: &[u32]) -> i64 {
    let mut sum: i64 = 0;
    for (order, fill) in orders.iter().zip(fills) {
        let value = i64::from(order.limit).saturating_mul(i64::from(*fill));
        sum = match order.side {
            Side::Sell => sum.saturating_sub(value),
            Side::Buy => sum.saturating_add(value),
        };
    }
    sum
}

#[test]
fn no_balanced_paper_does_better(rt: HostRuntime) {
    let day = [interval(5_000, 350)];
    let orders = [
        order(Side::Sell, 4_000, 100),
        order(Side::Sell, 5_000, 50),
        order(Side::Sell, 5_000, 50),
        order(Side::Buy, 6_000, 120),
    ];
    let first = [10_000, 2_350, 0, 12_000];
    let second = [10_000, 1_000, 1_350, 12_000];
    let third = [9_000, 3_350, 0, 12_000];
    assert_eq!(rt; answer(&day, &orders, &first, &[], &[]), Ok(20_250_000));
    assert_eq!(rt; answer(&day, &orders, &second, &[], &[]), Ok(20_250_000));
    assert_eq!(rt; answer(&day, &orders, &third, &[], &[]), Err((15, 1)));
    assert_eq!(rt; worth(&orders, &second), 20_250_000);
    assert_eq!(rt; worth(&orders, &third), 19_250_000);
}

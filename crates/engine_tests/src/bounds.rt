// The bounds of entry: the last number that is allowed, the first that is not, and the least and greatest of all.
use market::bounds::{check_start, check_terms};
use market::entry::Entry;
use market::records::{Block, Market, Order, Side};
use market::refusal::Refusal;

const LEAST: i32 = i32::MIN;

const MOST: i32 = i32::MAX;

// The number of a refusal, and 0 for none: a column of numbers reads plainer in a table than one of `Some` and `None`.
fn number(answer: Result<(), Refusal>) -> u32 {
    answer.err().map_or(0, |refusal| refusal.number())
}

#[test]
fn starts(rt: HostRuntime) {
    for (minutes, count, refused) in [
        (15, 1, 0),
        (30, 100, 0),
        (60, 96, 0),
        (0, 1, 1),
        (45, 0, 1),
        (LEAST, 1, 1),
        (MOST, 1, 1),
    ] {
        assert_eq!(rt; number(check_start(minutes, count)), refused);
    }
    for count in [0, 101, -1, LEAST, MOST] {
        assert_eq!(rt; check_start(15, count), Err(Refusal::Count));
    }
}

#[test]
fn terms(rt: HostRuntime) {
    for (interval, price, net, rounded, refused) in [
        (1, 0, 300, 3, 0),
        (1, 0, 300, 2, 5),
        (1, 0, 300, 4, 5),
        (1, 0, 350, 3, 0),
        (1, 0, 350, 4, 0),
        (1, 0, 350, 2, 5),
        (1, 0, -99, 0, 0),
        (1, 0, -100, 0, 5),
        (4, -50_000, 1_100_000_000, 11_000_000, 0),
        (4, 400_000, -1_100_000_000, -11_000_000, 0),
        (4, 0, 1_100_000_001, 11_000_000, 5),
        (4, 0, -1_100_000_001, -11_000_000, 5),
        (4, 0, LEAST, LEAST, 5),
        (4, 0, MOST, MOST, 5),
        (4, -50_001, 0, 1, 4),
        (4, 400_001, 0, 1, 4),
        (4, LEAST, 0, 0, 4),
        (4, MOST, 0, 0, 4),
        (0, MOST, 0, 0, 3),
        (5, MOST, 0, 0, 3),
        (LEAST, 0, 0, 0, 3),
        (MOST, 0, 0, 0, 3),
    ] {
        assert_eq!(rt;
            number(check_terms(4, interval, price, net, rounded)),
            refused
        );
    }
}

#[test]
fn orders(rt: HostRuntime) {
    for (interval, limit, quantity, account, refused) in [
        (1, -50_000, 1, 2, 0),
        (4, 400_000, 10_000, 65_535, 0),
        (0, MOST, 0, 0, 3),
        (5, MOST, 0, 0, 3),
        (LEAST, 0, 1, 2, 3),
        (MOST, 0, 1, 2, 3),
        (1, -50_001, 0, 0, 4),
        (1, 400_001, 0, 0, 4),
        (1, LEAST, 1, 2, 4),
        (1, MOST, 1, 2, 4),
        (1, 0, 0, -1, 7),
        (1, 0, 10_001, -1, 7),
        (1, 0, LEAST, 2, 7),
        (1, 0, MOST, 2, 7),
        (1, 0, 1, 1, 8),
        (1, 0, 1, -1, 8),
        (1, 0, 1, 65_536, 8),
        (1, 0, 1, LEAST, 8),
        (1, 0, 1, MOST, 8),
    ] {
        for stamp in [LEAST, 0, MOST] {
            let order = Order {
                side: Side::Sell,
                interval,
                limit,
                quantity,
                market: Market::Spot,
                stamp,
                account,
            };
            assert_eq!(rt; number(order.check_bounds(4)), refused);
        }
    }
}

#[test]
fn blocks(rt: HostRuntime) {
    for (first, last, limit, quantity, least, account, refused) in [
        (1, 1, -50_000, 1, 1, 2, 0),
        (1, 4, 400_000, 10_000, 100, 65_535, 0),
        (2, 1, 0, 1, 1, 2, 3),
        (0, 1, 0, 1, 1, 2, 3),
        (4, 5, MOST, 0, 0, 0, 3),
        (LEAST, MOST, 0, 1, 1, 2, 3),
        (MOST, LEAST, 0, 1, 1, 2, 3),
        (1, 1, LEAST, 0, 0, 0, 4),
        (1, 1, MOST, 0, 0, 0, 4),
        (1, 1, 0, LEAST, 0, 0, 7),
        (1, 1, 0, MOST, 0, 0, 7),
        (1, 1, 0, 1, 0, 0, 10),
        (1, 1, 0, 1, 101, 0, 10),
        (1, 1, 0, 1, LEAST, 0, 10),
        (1, 1, 0, 1, MOST, 0, 10),
        (1, 1, 0, 1, 1, 1, 8),
        (1, 1, 0, 1, 1, LEAST, 8),
        (1, 1, 0, 1, 1, MOST, 8),
    ] {
        let block = Block {
            side: Side::Buy,
            first,
            last,
            limit,
            quantity,
            least,
            stamp: LEAST,
            account,
        };
        assert_eq!(rt; number(block.check_bounds(4)), refused);
    }
}

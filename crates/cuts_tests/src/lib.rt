// Worked cases of rounding, rank and cuts. Every book here has its entries in interval 1 unless it says otherwise.
#![tactic(auto)]

#[cfg(test)]
mod tests {
    use cuts::candidates::{BlockCandidate, Lists, OrderCandidate};
    use cuts::list::insert;
    use cuts::open_cuts::open_cuts;
    use cuts::rounding::nearest;
    use cuts::settled::{rounded_numbers, settled_numbers};
    use market::records::{Block, Book, Fills, Market, Order, Side};
    use std::cmp::Reverse;
    use std::test::Fail;

    const SELL: Order = Order {
        side: Side::Sell,
        interval: 1,
        limit: 10,
        quantity: 1,
        market: Market::Spot,
        stamp: 1,
        account: 1,
    };

    const BUY: Order = Order {
        side: Side::Buy,
        ..SELL
    };

    const BLOCK: Block = Block {
        side: Side::Sell,
        first: 1,
        last: 2,
        limit: 10,
        quantity: 1,
        least: 0,
        stamp: 1,
        account: 1,
    };

    // The gap, the settled numbers of the orders and then of the blocks, and the remainder.
    fn settles(
        orders: &[Order],
        fills: &[u32],
        blocks: &[Block],
        block_fills: &[u32],
        rounded: i32,
        gap: i64,
        settled: &[u32],
        remainder: i64,
    ) -> Result<(), Fail> {
        let mut order_list = [OrderCandidate::BLANK; 16];
        let mut block_list = [BlockCandidate::BLANK; 16];
        let mut numbers = [7; 16];
        let book = Book { orders, blocks };
        let fills = Fills {
            orders: fills,
            blocks: block_fills,
        };
        let found = rounded_numbers(book, fills, 1, rounded, &mut numbers);
        if found != Some(gap) {
            return Err(Fail::new("the gap"));
        }
        let mut lists = Lists {
            orders: &mut order_list,
            blocks: &mut block_list,
        };
        let answer = settled_numbers(book, fills, 1, rounded, &mut lists, &mut numbers);
        if answer != Some(remainder) {
            return Err(Fail::new("the remainder"));
        }
        if !numbers.starts_with(settled) {
            return Err(Fail::new("a settled number"));
        }
        Ok(())
    }

    #[test]
    fn rounds_a_half_upward(rt: HostRuntime) {
        for (fill, steps) in [
            (0, 0),
            (49, 0),
            (50, 1),
            (149, 1),
            (150, 2),
            (2349, 23),
            (2350, 24),
        ] {
            assert_eq!(rt; nearest(fill), steps);
        }
    }

    #[test]
    fn counts_open_cuts(rt: HostRuntime) {
        assert_eq!(rt; open_cuts(&[5, 3, 3, 7]), 9);
        assert_eq!(rt; open_cuts(&[1, 1, 1]), 0);
        assert_eq!(rt; open_cuts(&[4, 2]), 3);
        assert_eq!(rt; open_cuts(&[]), 0);
    }

    #[test]
    fn leaves_what_no_cut_reaches() -> Result<(), Fail> {
        settles(
            &[SELL, SELL, SELL, BUY],
            &[50, 50, 50, 100],
            &[],
            &[],
            0,
            2,
            &[1, 1, 1, 1],
            2,
        )
    }

    #[test]
    fn cuts_by_rank() -> Result<(), Fail> {
        let derivative = Order {
            market: Market::Derivative,
            quantity: 3,
            ..SELL
        };
        let spot = Order {
            quantity: 3,
            ..SELL
        };
        let larger = Order {
            quantity: 4,
            ..SELL
        };
        let lower = Order {
            limit: -5,
            quantity: 3,
            ..SELL
        };
        let later = Order {
            stamp: 2,
            quantity: 3,
            ..SELL
        };
        let other = Order {
            account: 2,
            quantity: 3,
            ..SELL
        };
        // One cut falls on the first in rank: spot before derivative, the larger, the lower limit, the earlier, the lower account.
        settles(&[derivative, spot], &[300, 300], &[], &[], 5, 1, &[3, 2], 0)?;
        settles(&[spot, larger], &[300, 400], &[], &[], 6, 1, &[3, 3], 0)?;
        settles(&[spot, lower], &[300, 300], &[], &[], 5, 1, &[3, 2], 0)?;
        settles(&[later, spot], &[300, 300], &[], &[], 5, 1, &[3, 2], 0)?;
        settles(&[other, spot], &[300, 300], &[], &[], 5, 1, &[3, 2], 0)
    }

    #[test]
    fn cuts_equals_by_entry() -> Result<(), Fail> {
        let sell = Order {
            quantity: 3,
            ..SELL
        };
        settles(&[sell, sell], &[300, 300], &[], &[], 5, 1, &[2, 3], 0)?;
        let block = Block {
            quantity: 3,
            ..BLOCK
        };
        settles(&[], &[], &[block, block], &[300, 300], 5, 1, &[2, 3], 0)
    }

    #[test]
    fn cuts_buys_with_higher_limits_first() -> Result<(), Fail> {
        let low = Order {
            limit: 10,
            quantity: 3,
            ..BUY
        };
        let high = Order {
            limit: 20,
            quantity: 3,
            ..BUY
        };
        settles(&[low, high], &[300, 300], &[], &[], -5, -1, &[3, 2], 0)
    }

    #[test]
    fn takes_turns_until_one_holds_a_single_step() -> Result<(), Fail> {
        let five = Order {
            quantity: 5,
            ..SELL
        };
        let two = Order {
            quantity: 2,
            ..SELL
        };
        // Five, two, two in rank order: four cuts are open, and the second round stops at the first that holds one step.
        settles(
            &[five, two, two],
            &[500, 200, 200],
            &[],
            &[],
            0,
            9,
            &[3, 1, 1],
            5,
        )?;
        settles(
            &[five, two, two],
            &[500, 200, 200],
            &[],
            &[],
            6,
            3,
            &[4, 1, 1],
            0,
        )
    }

    #[test]
    fn judges_partly_filled_on_the_fill() -> Result<(), Fail> {
        // Both round to three steps; only the second is below its quantity, so it is cut first although it ranks behind.
        let full = Order {
            quantity: 3,
            ..SELL
        };
        let partly = Order {
            quantity: 3,
            stamp: 2,
            ..SELL
        };
        settles(&[full, partly], &[300, 299], &[], &[], 5, 1, &[3, 2], 0)
    }

    #[test]
    fn runs_through_all_four_stages() -> Result<(), Fail> {
        let order = Order {
            quantity: 3,
            ..SELL
        };
        let block = Block {
            quantity: 3,
            ..BLOCK
        };
        // Two cuts are open in each stage; entry 1 is full, entry 2 partly filled, and so for the blocks.
        for (rounded, gap, first, second, third, fourth, remainder) in [
            (11, 1, 3, 2, 3, 3, 0),
            (9, 3, 2, 1, 3, 3, 0),
            (7, 5, 1, 1, 3, 2, 0),
            (4, 8, 1, 1, 1, 1, 0),
            (3, 9, 1, 1, 1, 1, 1),
        ] {
            settles(
                &[order, order],
                &[300, 299],
                &[block, block],
                &[300, 299],
                rounded,
                gap,
                &[first, second, third, fourth],
                remainder,
            )?;
        }
        Ok(())
    }

    #[test]
    fn passes_over_other_intervals() -> Result<(), Fail> {
        let elsewhere = Order {
            interval: 2,
            quantity: 3,
            ..SELL
        };
        let here = Order {
            quantity: 3,
            ..SELL
        };
        let past = Block {
            first: 2,
            quantity: 3,
            ..BLOCK
        };
        settles(
            &[elsewhere, here],
            &[300, 300],
            &[past],
            &[300],
            2,
            1,
            &[0, 2, 0],
            0,
        )
    }

    #[test]
    fn refuses_slices_that_do_not_fit(rt: HostRuntime) {
        let mut order_list = [OrderCandidate::BLANK; 1];
        let mut block_list = [BlockCandidate::BLANK; 1];
        let mut numbers = [7; 2];
        let mut lists = Lists {
            orders: &mut order_list,
            blocks: &mut block_list,
        };
        let sell = Book::of_orders(&[SELL]);
        let none = Fills::of_orders(&[]);
        assert_eq!(rt;
            settled_numbers(sell, none, 1, 0, &mut lists, &mut numbers),
            None
        );
        let sells = Book::of_orders(&[SELL, SELL]);
        let two = Fills::of_orders(&[100, 100]);
        assert_eq!(rt;
            settled_numbers(sells, two, 1, 0, &mut lists, &mut numbers),
            None
        );
        let with_block = Book {
            orders: &[SELL, SELL],
            blocks: &[BLOCK],
        };
        let three = Fills {
            orders: &[100, 100],
            blocks: &[100],
        };
        assert_eq!(rt;
            rounded_numbers(with_block, three, 1, 0, &mut numbers),
            None
        );
        assert_eq!(rt; numbers, [7, 7]);
    }

    #[test]
    fn inserts_in_rank(rt: HostRuntime) {
        let small = BlockCandidate {
            steps: Reverse(2),
            ..BlockCandidate::BLANK
        };
        let large = BlockCandidate {
            steps: Reverse(9),
            entry: 1,
            ..BlockCandidate::BLANK
        };
        let second = BlockCandidate {
            steps: Reverse(2),
            entry: 2,
            ..BlockCandidate::BLANK
        };
        let mut list = [BlockCandidate::BLANK; 3];
        assert!(rt; insert(&mut list, 0, second));
        assert!(rt; insert(&mut list, 1, large));
        assert!(rt; insert(&mut list, 2, small));
        assert!(rt; !insert(&mut list, 3, small));
        assert_eq!(rt; list[0].entry, 1);
        assert_eq!(rt; list[1].entry, 0);
        assert_eq!(rt; list[2].entry, 2);
    }

    // Each order has a lower limit than the one before, so that each is inserted in front.
    fn fall(orders: &mut [Order]) {
        for (order, limit) in orders.iter_mut().zip((0..=400_000).rev()) {
            order.limit = limit;
        }
    }

    // The largest book: 1,024 sells of 10,000 steps in one interval, without a buy.
    #[test]
    fn settles_a_full_book(rt: HostRuntime) {
        let mut orders = [Order {
            quantity: 10_000,
            ..SELL
        }; 1024];
        fall(&mut orders);
        let fills = [1_000_000; 1024];
        let mut order_list = [OrderCandidate::BLANK; 1024];
        let mut numbers = [0; 1024];
        let book = Book::of_orders(&orders);
        let fills = Fills::of_orders(&fills);
        let mut lists = Lists {
            orders: &mut order_list,
            blocks: &mut [],
        };
        assert_eq!(rt;
            settled_numbers(book, fills, 1, 0, &mut lists, &mut numbers),
            Some(1024)
        );
        for number in numbers {
            assert_eq!(rt; number, 1);
        }
    }
}

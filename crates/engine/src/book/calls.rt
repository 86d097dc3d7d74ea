// Starting a day, and filling its book.
ghost use Rattle.std.specs.Prelude.{◌≡◌, ◌≤◌, length};
ghost use Rattle.market.specs.Bounds.{terms_bounds, order_bounds, block_bounds};
ghost use Rattle.engine.specs.Books.{Started, Termed, entry, Entered};
ghost use Rattle.std.specs.Result.{result_unwrap_or};

use super::{Closed, Counts, Open};
use crate::day::Day;
use market::bounds::{MOST_BLOCKS, MOST_ORDERS, check_start, check_terms};
use market::entry::Entry;
use market::records::{Block, Interval, Order};
use market::refusal::Refusal;

/// A fresh day of so many intervals, and its open book: 1 for the minutes, then 2 for the count.
pub fn start(minutes: i32, count: i32) -> Result<(Day, Open), Refusal>
    ensures { Started minutes count result }
{
    check_start(minutes, count)?;
    Ok((
        Day::fresh(minutes, count as usize),
        Open {
            counts: Counts {
                orders: 0,
                blocks: 0,
            },
        },
    ))
}

// One more entry in a memory: its bounds of entry, and then 6 exactly when the memory or the limit is full. The caller lends the
// memory, and no crate has a heap, so the count of its entries stands beside it.
fn enter<E: Entry + Copy>(
    day: &Day,
    memory: &mut [E],
    count: usize,
    most: usize,
    record: E,
) -> Result<usize, Refusal>
    requires { most ≤ 1024 }
    ensures answers { result ≡ entry (E.kind.bounds day.now.count «record») count (length memory.old) most }
    ensures leaves { Entered result «record» count memory.old (result_unwrap_or result count) memory.new }
{
    record.check_bounds(day.count())?;
    if count >= memory.len() || count >= most {
        return Err(Refusal::Full);
    }
    memory[count] = record;
    Ok(count + 1)
}

impl Open {
    /// Sets the price, the net position and its rounding of an interval: 3, 4, 5.
    pub fn terms(
        &self,
        day: &mut Day,
        interval: i32,
        price: i32,
        net: i32,
        rounded: i32,
    ) -> Result<(), Refusal>
        ensures answers { result ≡ terms_bounds day.old.count interval price net rounded }
        ensures leaves { Termed day.old interval price net rounded result day.new }
    {
        check_terms(day.count(), interval, price, net, rounded)?;
        let record = day.record(interval);
        day.put(
            interval,
            Interval {
                price,
                net,
                rounded,
                ..record
            },
        );
        Ok(())
    }

    /// Enters an order into the caller's memory, and answers its entry: 3, 4, 7, 8, and last 6 when the memory or the book is full.
    pub fn enter_order(
        &mut self,
        day: &Day,
        memory: &mut [Order],
        order: Order,
    ) -> Result<usize, Refusal>
        ensures answers { result ≡ entry (order_bounds day.now.count order) self.old.counts.orders (length memory.old) 1024 }
        ensures leaves { Entered result order self.old.counts.orders memory.old self.new.counts.orders memory.new }
        ensures blocks { self.new.counts.blocks ≡ self.old.counts.blocks }
    {
        self.counts.orders = enter(day, memory, self.counts.orders, MOST_ORDERS, order)?;
        Ok(self.counts.orders)
    }

    /// Enters a block into the caller's memory, and answers its number among the blocks: 3, 4, 7, 10, 8, and last 6 when the memory
    /// or the book is full.
    pub fn enter_block(
        &mut self,
        day: &Day,
        memory: &mut [Block],
        block: Block,
    ) -> Result<usize, Refusal>
        ensures answers { result ≡ entry (block_bounds day.now.count block) self.old.counts.blocks (length memory.old) 64 }
        ensures leaves { Entered result block self.old.counts.blocks memory.old self.new.counts.blocks memory.new }
        ensures orders { self.new.counts.orders ≡ self.old.counts.orders }
    {
        self.counts.blocks = enter(day, memory, self.counts.blocks, MOST_BLOCKS, block)?;
        Ok(self.counts.blocks)
    }

    /// Closes the book: it takes no more terms and entries.
    pub fn close(self) -> Closed
        ensures { result.counts ≡ self.counts }
    {
        Closed {
            counts: self.counts,
        }
    }
}

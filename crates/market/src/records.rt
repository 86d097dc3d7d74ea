// The records that a day is made of. They are plain: the caller's memory can hold any numbers, and judging looks at it.
ghost use Rattle.std.specs.Prelude.{◌≡◌, [], length};
ghost use Rattle.market.specs.Bounds.{limits_ok, sizes_ok, each_filled};
ghost use Rattle.market.specs.Signed.{signed, Within};

use super::bounds::{MOST_BLOCKS, MOST_INTERVALS, MOST_ORDERS};
use std::fmt;

/// Which way an order or a block trades.
#[derive(Clone, Copy, PartialEq, Eq, Debug)]
pub enum Side {
    Sell,
    Buy,
}

impl fmt::Display for Side {
    fn fmt<W: fmt::Write>(&self, f: &mut fmt::Formatter<W>) -> fmt::Result {
        f.write_str(match self {
            Side::Sell => "sell",
            Side::Buy => "buy",
        })
    }
}

impl Side {
    /// What an amount adds to sells less buys: plus for a sell, minus for a buy.
    pub fn signed(self, amount: u32) -> i64
        ensures is { result ≡ signed self amount }
        ensures small { Within 4294967296 result }
    {
        match self {
            Side::Sell => i64::from(amount),
            Side::Buy => -i64::from(amount),
        }
    }
}

/// The market that a standard order comes from.
#[derive(Clone, Copy, PartialEq, Eq, PartialOrd, Ord, Debug)]
pub enum Market {
    Spot,
    Derivative,
}

/// How far the settling of an interval has come.
#[derive(Clone, Copy, PartialEq, Eq, Debug)]
pub enum Mark {
    Unsettled,
    Out,
    Noted,
    Closed,
}

// The remainder stands beside the mark and not in its cases: three of the four would carry the same number, and whoever reads the
// remainder would have to match on all of them.
/// One interval of a day.
#[derive(Clone, Copy, PartialEq, Eq, Debug)]
pub struct Interval {
    /// Whole cents per MWh.
    pub price: i32,
    /// The net position: sales less purchases, in thousandths of a MW.
    pub net: i32,
    /// The net position rounded to steps of 0.1 MW.
    pub rounded: i32,
    pub mark: Mark,
    /// What rounding and cutting left over, in steps.
    pub remainder: i32,
}

/// A standard order, for one interval.
#[derive(Clone, Copy, PartialEq, Eq, Debug)]
pub struct Order {
    pub side: Side,
    pub interval: i32,
    /// The limit price in cents per MWh.
    pub limit: i32,
    /// Steps of 0.1 MW.
    pub quantity: i32,
    pub market: Market,
    /// Seconds.
    pub stamp: i32,
    pub account: i32,
}

/// A block order: one quantity for all intervals from its first to its last.
#[derive(Clone, Copy, PartialEq, Eq, Debug)]
pub struct Block {
    pub side: Side,
    pub first: i32,
    pub last: i32,
    /// The limit price in cents per MWh.
    pub limit: i32,
    /// Steps of 0.1 MW.
    pub quantity: i32,
    /// The least percentage of the quantity that may be filled, if any of it is.
    pub least: i32,
    /// Seconds.
    pub stamp: i32,
    pub account: i32,
}

// Book and fills are memory that the caller lends, list by list. They are two values: a book is also entered, held and checked without
// a paper, and several papers are judged on one book.
/// The orders and the blocks of a book, in the caller's memory.
#[derive(Clone, Copy)]
pub struct Book<'a> {
    pub orders: &'a [Order],
    pub blocks: &'a [Block],
}

impl<'a> Book<'a> {
    /// A book without blocks.
    pub fn of_orders(orders: &'a [Order]) -> Book<'a>
        ensures orders { result.orders.now ≡ orders.now }
        ensures blocks { result.blocks.now ≡ [] }
    {
        Book {
            orders,
            blocks: &[],
        }
    }

    /// Whether a book can have so many orders and blocks.
    pub fn is_within_limits(self) -> bool
        ensures { result ≡ limits_ok (length self.entry.orders.now) (length self.entry.blocks.now) }
    {
        self.orders.len() <= MOST_ORDERS && self.blocks.len() <= MOST_BLOCKS
    }

    /// The same, and whether a day can have so many intervals.
    pub fn is_within_limits_in(self, intervals: usize) -> bool
        ensures { result ≡ sizes_ok intervals (length self.entry.orders.now) (length self.entry.blocks.now) }
    {
        intervals <= MOST_INTERVALS && self.is_within_limits()
    }
}

/// A paper on a book: a fill for each order, and one for each block, in thousandths of a MW.
#[derive(Clone, Copy)]
pub struct Fills<'a> {
    pub orders: &'a [u32],
    pub blocks: &'a [u32],
}

impl<'a> Fills<'a> {
    /// The fills of a book without blocks.
    pub fn of_orders(fills: &'a [u32]) -> Fills<'a>
        ensures orders { result.orders.now ≡ fills.now }
        ensures blocks { result.blocks.now ≡ [] }
    {
        Fills {
            orders: fills,
            blocks: &[],
        }
    }

    /// Whether there is one for each entry of a book.
    pub fn fit(self, book: Book<'_>) -> bool
        ensures { result ≡ each_filled (length book.entry.orders.now) (length self.entry.orders.now) (length book.entry.blocks.now) (length self.entry.blocks.now) }
    {
        book.orders.len() == self.orders.len() && book.blocks.len() == self.blocks.len()
    }
}

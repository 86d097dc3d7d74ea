// The candidates of a stage. Their fields are exactly what ranks them, the first deciding before the second, so that their order
// is the derived one: the lesser precedes.
use market::records::Market;
use std::cmp::Reverse;

/// A block to be cut.
#[derive(Clone, Copy, PartialEq, Eq, PartialOrd, Ord, Debug)]
pub struct BlockCandidate {
    /// Its rounded quantity: the larger precedes.
    pub steps: Reverse<u32>,
    /// The limit of a sell, the negated limit of a buy: the lower precedes.
    pub limit: i64,
    /// The earlier precedes.
    pub stamp: i32,
    pub account: i32,
    /// Its place among the blocks of the book.
    pub entry: usize,
}

impl BlockCandidate {
    /// What a list holds before it is gathered.
    pub const BLANK: BlockCandidate = BlockCandidate {
        steps: Reverse(0),
        limit: 0,
        stamp: 0,
        account: 0,
        entry: 0,
    };
}

/// An order to be cut: it ranks by its market, then as a block does.
#[derive(Clone, Copy, PartialEq, Eq, PartialOrd, Ord, Debug)]
pub struct OrderCandidate {
    pub market: Market,
    pub rest: BlockCandidate,
}

impl OrderCandidate {
    /// What a list holds before it is gathered.
    pub const BLANK: OrderCandidate = OrderCandidate {
        market: Market::Spot,
        rest: BlockCandidate::BLANK,
    };
}

/// Working memory for the two rankings of an interval: a place for each possible candidate.
#[derive(Drop)]
pub struct Lists<'a> {
    pub orders: &'a mut [OrderCandidate],
    pub blocks: &'a mut [BlockCandidate],
}

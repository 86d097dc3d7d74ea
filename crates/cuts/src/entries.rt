// The candidates that the entries of a book stand for.
ghost use Rattle.std.specs.Prelude.{◌≡◌, ℕ};
ghost use Rattle.cuts.specs.Kinds.{order_stands, block_stands, price_key, ranking};

use crate::candidates::{BlockCandidate, OrderCandidate};
use market::entry::Entry;
use market::records::{Block, Order, Side};
use std::cmp::Reverse;

/// An entry that can be a candidate of a stage of cuts.
pub trait Stands<C>: Entry {
    ghost stands: { Self → ℕ → ℕ → C };

    /// The candidate with that many rounded steps, at that place of the book.
    fn candidate(&self, steps: u32, place: usize) -> C
        ensures { result ≡ stands self.now steps place };
}

// Not `Side::signed`, which promises that its answer is small because a count is; a limit has a sign of its own.
// The limit as it ranks, the lower first: a sell's as it is, a buy's negated.
fn price_key(side: Side, limit: i32) -> i64
    ensures { result ≡ price_key side limit }
{
    match side {
        Side::Sell => i64::from(limit),
        Side::Buy => -i64::from(limit),
    }
}

// What ranks an entry among those of its kind.
fn ranking<E: Entry>(entry: &E, steps: u32, place: usize) -> BlockCandidate
    ensures { result ≡ ranking E.kind entry.now steps place }
{
    BlockCandidate {
        steps: Reverse(steps),
        limit: price_key(entry.side(), entry.limit()),
        stamp: entry.stamp(),
        account: entry.account(),
        entry: place,
    }
}

impl Stands<BlockCandidate> for Block {
    ghost stands = { block_stands };

    fn candidate(&self, steps: u32, place: usize) -> BlockCandidate {
        ranking(self, steps, place)
    }
}

impl Stands<OrderCandidate> for Order {
    ghost stands = { order_stands };

    fn candidate(&self, steps: u32, place: usize) -> OrderCandidate {
        OrderCandidate {
            market: self.market,
            rest: ranking(self, steps, place),
        }
    }
}

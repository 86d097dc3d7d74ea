// The entries of a book in the caller's memory.
ghost use Rattle.std.specs.Prelude.{◌≡◌, take, true, Ok, Err, IfOk, OnOk, IfErr, IfSome, is_some};
ghost use Rattle.market.specs.Bounds.{in_day};
ghost use Rattle.engine.specs.Books.{holds};
ghost use Rattle.engine.specs.Settling.{usable};

use super::{Counts, Passed};
use crate::day::Day;
use crate::refusal::Refusal;
use market::records::{Book, Mark};
use market::refusal::Refusal as MarketRefusal;

impl Counts {
    // The entries that are counted, where neither memory is shorter than its count.
    pub(crate) fn held<'a>(&self, memory: Book<'a>) -> Option<Book<'a>>
        ensures holds { is_some result ≡ holds self.now memory.entry.orders.now memory.entry.blocks.now }
        ensures orders { IfSome result (λ book. book.orders.now ≡ take self.now.orders memory.entry.orders.now) }
        ensures blocks { IfSome result (λ book. book.blocks.now ≡ take self.now.blocks memory.entry.blocks.now) }
    {
        Some(Book {
            orders: memory.orders.get(..self.orders)?,
            blocks: memory.blocks.get(..self.blocks)?,
        })
    }
}

impl Passed {
    // The entries of the book in the memory, where the interval has a mark: 3, the refusal of one without it, 11.
    pub(crate) fn usable<'a>(
        &self,
        day: &Day,
        memory: Book<'a>,
        interval: i32,
        mark: Mark,
        refusal: Refusal,
    ) -> Result<Book<'a>, Refusal>
        ensures refuses { IfErr result (λ e. usable self.now day.now memory.entry.orders.now memory.entry.blocks.now interval mark refusal ≡ Err e) }
        ensures passes { OnOk result (usable self.now day.now memory.entry.orders.now memory.entry.blocks.now interval mark refusal ≡ Ok tt) }
        ensures within { OnOk result (in_day day.now.count interval ≡ true) }
        ensures orders { IfOk result (λ book. book.orders.now ≡ take self.now.counts.orders memory.entry.orders.now) }
        ensures blocks { IfOk result (λ book. book.blocks.now ≡ take self.now.counts.blocks memory.entry.blocks.now) }
    {
        let record = day.interval(interval).ok_or(MarketRefusal::NoInterval)?;
        if record.mark != mark {
            return Err(refusal);
        }
        self.counts
            .held(memory)
            .ok_or(Refusal::Market(MarketRefusal::Short))
    }
}

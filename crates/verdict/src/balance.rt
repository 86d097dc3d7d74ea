// Sales less purchases, interval by interval.
ghost use Rattle.std.specs.Prelude.{◌≡◌};
ghost use Rattle.verdict.specs.Balance.{sale_in, net_of, interval_balance};

use super::paper::Paper;
use super::walk::{Amount, Check, sum_of};
use market::entry::Entry;
use market::records::Interval;
use market::refusal::Refusal;

/// What an entry sells in one interval; a purchase counts minus.
#[derive(Drop)]
struct Sales {
    interval: u32,
}

impl<E: Entry> Amount<E> for Sales {
    ghost may = { λ _ _ _. Unit {0} };

    ghost gives = { λ s x f. sale_in E.kind s.interval x f };

    fn amount(&self, x: &E, fill: u32) -> i64 {
        if x.covers(self.interval) {
            x.side().signed(fill)
        } else {
            0
        }
    }
}

impl<'a, 'b> Paper<'a, 'b> {
    // Sales less purchases in one interval.
    #[tactic(auto, using(crate::proofs::Eachs::each_none))]
    fn net_of(&self, interval: u32) -> i64
        ensures { result ≡ net_of interval self.now.book.orders.now self.now.fills.orders.now self.now.book.blocks.now self.now.fills.blocks.now }
    {
        let sales = Sales { interval };
        sum_of(&sales, self.book.orders, self.fills.orders)
            + sum_of(&sales, self.book.blocks, self.fills.blocks)
    }
}

/// 18: sales less purchases of a paper are the net position of the interval.
impl<'a, 'b> Check<Interval> for Paper<'a, 'b> {
    ghost answer = { λ p x t. interval_balance p.book.orders.now p.fills.orders.now p.book.blocks.now p.fills.blocks.now x t };

    fn check(&self, x: &Interval, number: u32) -> Result<(), Refusal> {
        if self.net_of(number) != i64::from(x.net) {
            return Err(Refusal::Unbalanced { interval: number });
        }
        Ok(())
    }
}

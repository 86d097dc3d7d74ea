// The phases of the verdict, one after the other.
ghost use Rattle.std.specs.Prelude.{◌≡◌, ◌≤◌, length, Ok};
ghost use Rattle.verdict.specs.Verdict.{bounds, quantities, prices, balances, verdict_of};
ghost use Rattle.verdict.specs.Balance.{welfare};

use super::paper::{Paper, next_entry};
use super::rules::{Bounds, Prices};
use super::walk::{first_broken, first_refused, sum_of};
use super::welfare::Worths;
use market::records::{Book, Fills, Interval};
use market::refusal::Refusal;

// How many entries there are is asked of the book and not of a `Paper`: `check_book` has no fills.
/// 12: the bounds of entry, in a day of so many intervals.
pub(crate) fn bounds(intervals: usize, book: Book<'_>) -> Result<(), Refusal>
    requires { (length book.orders.now ≤ 1024) × (length book.blocks.now ≤ 64) }
    ensures { result ≡ bounds intervals book.entry.orders.now book.entry.blocks.now }
{
    let bounds = Bounds { intervals };
    first_refused(&bounds, book.orders, 1)?;
    first_refused(&bounds, book.blocks, next_entry(book))
}

// A paper whose records are within the bounds of entry of the day.
#[derive(Drop)]
struct Entered<'a, 'b, 'c> {
    prices: Prices<'a>,
    paper: Paper<'b, 'c>,
    ghost bounded: { bounds (length prices.day.now) paper.book.orders.now paper.book.blocks.now ≡ Ok tt },
}

impl<'a, 'b, 'c> Entered<'a, 'b, 'c> {
    // 14 and 15 for the orders, 16 and 17 for the blocks.
    fn check_prices(&self) -> Result<(), Refusal>
        ensures { result ≡ prices self.now.prices.day.now self.now.paper.book.orders.now self.now.paper.fills.orders.now self.now.paper.book.blocks.now self.now.paper.fills.blocks.now }
    {
        let Paper { book, fills, .. } = &self.paper;
        first_broken(&self.prices, book.orders, fills.orders, 1)?;
        first_broken(&self.prices, book.blocks, fills.blocks, next_entry(*book))
    }

    // 18.
    fn check_balances(&self) -> Result<(), Refusal>
        ensures { result ≡ balances self.now.prices.day.now self.now.paper.book.orders.now self.now.paper.fills.orders.now self.now.paper.book.blocks.now self.now.paper.fills.blocks.now }
    {
        first_refused(&self.paper, self.prices.day, 1)
    }

    #[tactic(auto, using(crate::proofs::Judging::orders_mild))]
    fn welfare(&self) -> i64
        requires { quantities self.now.paper.book.orders.now self.now.paper.fills.orders.now self.now.paper.book.blocks.now self.now.paper.fills.blocks.now ≡ Ok tt }
        ensures { result ≡ welfare self.now.paper.book.orders.now self.now.paper.fills.orders.now self.now.paper.book.blocks.now self.now.paper.fills.blocks.now }
    {
        let Paper { book, fills, .. } = &self.paper;
        sum_of(&Worths, book.orders, fills.orders) + sum_of(&Worths, book.blocks, fills.blocks)
    }
}

pub(crate) fn examine(day: &[Interval], book: Book<'_>, fills: Fills<'_>) -> Result<i64, Refusal>
    ensures { result ≡ verdict_of day.now book.entry.orders.now fills.entry.orders.now book.entry.blocks.now fills.entry.blocks.now }
{
    let paper = Paper::new(day.len(), book, fills)?;
    bounds(day.len(), book)?;
    let prices = Prices { day };
    let entered = Entered { prices, paper };
    entered.paper.check_quantities()?;
    entered.check_prices()?;
    entered.check_balances()?;
    Ok(entered.welfare())
}

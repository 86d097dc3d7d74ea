// The rules on one record, and on one entry with its fill.
ghost use Rattle.std.specs.Prelude.{◌≡◌, ℕ, ◌≤◌, true, length, pos, ◌*ℤ◌, ◌≤ℤ◌, Ok};
ghost use Rattle.market.specs.Bounds.{full, in_day, quantity_ok, least_ok, span_ok, order_bounds, block_bounds, outside};
ghost use Rattle.verdict.specs.Rules.{within, quantity_rule, price_at, misses, beats, order_price};
ghost use Rattle.verdict.specs.Rules.{enough, price_sum, block_prices, span, pays, block_price};

use super::walk::{Check, Rule};
use market::bounds::{is_full, thousandths};
use market::entry::Entry;
use market::records::{Block, Interval, Order, Side};
use market::refusal::Refusal;

const WHOLE_PERCENTAGE: i64 = 100;

/// 12: the bounds of entry, in a day of so many intervals.
#[derive(Drop)]
pub(crate) struct Bounds {
    pub intervals: usize,
}

impl<E: Entry> Check<E> for Bounds {
    ghost answer = { λ d x k. outside k (E.kind.bounds d.intervals x) };

    fn check(&self, x: &E, number: u32) -> Result<(), Refusal> {
        x.check_bounds(self.intervals)
            .map_err(|_| Refusal::OutsideBounds { entry: number })
    }
}

/// 13: no fill above its quantity.
#[derive(Drop)]
pub(crate) struct Quantities;

impl<E: Entry> Rule<E> for Quantities {
    ghost may = { λ _ _ _. Unit {0} };

    ghost answer = { λ _ x f k. quantity_rule (E.kind.quantity x) f k };

    fn judge(&self, x: &E, fill: u32, entry: u32) -> Result<(), Refusal> {
        if i64::from(fill) > thousandths(x.quantity()) {
            return Err(Refusal::OverQuantity { entry });
        }
        Ok(())
    }
}

/// 14 and 15 for the orders, 16 and 17 for the blocks: the prices of a day.
#[derive(Drop)]
pub(crate) struct Prices<'a> {
    pub day: &'a [Interval],
    ghost short: { length day.now ≤ 100 },
}

// Of one price and limit, and of a block's added up.
fn is_missed(side: Side, limit: i64, price: i64) -> bool
    ensures { result ≡ misses side limit price }
{
    match side {
        Side::Sell => limit > price,
        Side::Buy => limit < price,
    }
}

// Not `is_missed` with limit and price exchanged: that would read as a price which misses a limit, and no rule says so.
fn is_beaten(side: Side, limit: i64, price: i64) -> bool
    ensures { result ≡ beats side limit price }
{
    match side {
        Side::Sell => limit < price,
        Side::Buy => limit > price,
    }
}

fn is_paid(side: Side, limits: i64, prices: i64) -> bool
    ensures { result ≡ pays side limits prices }
{
    !is_missed(side, limits, prices)
}

impl<'a> Rule<Order> for Prices<'a> {
    ghost may = { λ p o _. in_day (length p.day.now) o.interval ≡ true };

    ghost answer = { λ p o f k. order_price p.day.now o f k };

    fn judge(&self, x: &Order, fill: u32, entry: u32) -> Result<(), Refusal> {
        let limit = i64::from(x.limit);
        let price = i64::from(self.at(x.interval));
        if is_missed(x.side, limit, price) && fill != 0 {
            return Err(Refusal::ShouldBeEmpty { entry });
        }
        if is_beaten(x.side, limit, price) && !is_full(x.quantity, fill) {
            return Err(Refusal::ShouldBeFull { entry });
        }
        Ok(())
    }
}

// At least the block's percentage of its quantity.
fn is_enough(block: &Block, fill: u32) -> bool
    requires { (quantity_ok block.now.quantity ≡ true) × (least_ok block.now.least ≡ true) }
    ensures { result ≡ enough block.now fill }
{
    i64::from(block.least) * thousandths(block.quantity) <= WHOLE_PERCENTAGE * i64::from(fill)
}

// How many intervals there are is asked here: they are a part of the day, and `Prices` holds the whole.
fn total_price(intervals: &[Interval]) -> i64
    requires { length intervals.now ≤ 100 }
    ensures { result ≡ price_sum intervals.now }
{
    let mut sum = 0;
    // A loop, since a `sum()` of signed numbers has no bound that a proof knows.
    for interval in intervals {
        sum += i64::from(interval.price);
    }
    sum
}

impl<'a> Prices<'a> {
    // The price of an interval.
    fn at(&self, interval: i32) -> i32
        requires { in_day (length self.now.day.now) interval ≡ true }
        ensures { result ≡ price_at self.now.day.now interval }
    {
        self.day[interval as usize - 1].price
    }

    // The prices of a block's intervals, added up.
    fn over(&self, block: &Block) -> i64
        requires { span_ok (length self.now.day.now) block.now.first block.now.last ≡ true }
        ensures { result ≡ block_prices self.now.day.now block.now }
    {
        total_price(&self.day[block.first as usize - 1..block.last as usize])
    }
}

pub(crate) fn span(block: &Block) -> i64
    ensures { result ≡ span block.now }
{
    i64::from(block.last) - i64::from(block.first) + 1
}

fn limits_of(block: &Block) -> i64
    requires { (pos 1 ≤ℤ span block.now) × (span block.now ≤ℤ pos 100) }
    ensures { result ≡ block.now.limit *ℤ span block.now }
{
    i64::from(block.limit) * span(block)
}

impl<'a> Rule<Block> for Prices<'a> {
    ghost may = { λ p b _. block_bounds (length p.day.now) b ≡ Ok tt };

    ghost answer = { λ p b f k. block_price p.day.now b f k };

    fn judge(&self, x: &Block, fill: u32, entry: u32) -> Result<(), Refusal> {
        if fill == 0 {
            return Ok(());
        }
        if !is_enough(x, fill) {
            return Err(Refusal::BelowLeast { entry });
        }
        if !is_paid(x.side, limits_of(x), self.over(x)) {
            return Err(Refusal::BlockPrice { entry });
        }
        Ok(())
    }
}

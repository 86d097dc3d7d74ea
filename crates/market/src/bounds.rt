// The bounds of entry.
ghost use Rattle.std.specs.Prelude.{◌≡◌, pos, ◌-ℤ◌, ◌*ℤ◌};
ghost use Rattle.market.specs.Bounds.{minutes_ok, count_ok, in_day, price_ok, net_ok, quantity_ok, account_ok, least_ok, span_ok, full};
ghost use Rattle.market.specs.Bounds.{start_bounds, terms_bounds};

use super::refusal::Refusal;

/// The most intervals that a day can have.
pub const MOST_INTERVALS: usize = 100;

/// The most orders that a book can have.
pub const MOST_ORDERS: usize = 1024;

/// The most blocks that a book can have.
pub const MOST_BLOCKS: usize = 64;

/// A step of 0.1 MW, in thousandths of a MW.
pub const THOUSANDTHS_PER_STEP: i64 = 100;

const LOWEST_PRICE: i32 = -50_000;

const HIGHEST_PRICE: i32 = 400_000;

const MOST_NET: i32 = 1_100_000_000;

const MOST_STEPS: i32 = 10_000;

const FIRST_ACCOUNT: i32 = 2;

const LAST_ACCOUNT: i32 = 65_535;

fn is_minutes(minutes: i32) -> bool
    ensures { result ≡ minutes_ok minutes }
{
    matches!(minutes, 15 | 30 | 60)
}

fn is_count(count: i32) -> bool
    ensures { result ≡ count_ok count }
{
    is_in_day(MOST_INTERVALS, i64::from(count))
}

/// Whether a day of so many intervals has the interval: they are numbered from 1.
pub fn is_in_day(intervals: usize, interval: i64) -> bool
    ensures { result ≡ in_day intervals interval }
{
    usize::try_from(interval).is_ok_and(|interval| (1..=intervals).contains(&interval))
}

pub(crate) fn is_price(price: i32) -> bool
    ensures { result ≡ price_ok price }
{
    (LOWEST_PRICE..=HIGHEST_PRICE).contains(&price)
}

/// Steps in thousandths of a MW.
pub fn thousandths(steps: i32) -> i64
    ensures { result ≡ pos 100 *ℤ steps }
{
    THOUSANDTHS_PER_STEP * i64::from(steps)
}

/// Whether a fill, in thousandths of a MW, is all of a quantity of so many steps.
pub fn is_full(quantity: i32, fill: u32) -> bool
    ensures { result ≡ full quantity fill }
{
    i64::from(fill) >= thousandths(quantity)
}

// How far the rounded net position, in thousandths, lies above the net position.
fn rounding(net: i32, rounded: i32) -> i64
    ensures { result ≡ (pos 100 *ℤ rounded) -ℤ net }
{
    thousandths(rounded) - i64::from(net)
}

fn is_net(net: i32, rounded: i32) -> bool
    ensures { result ≡ net_ok net rounded }
{
    let off = rounding(net, rounded);
    (-MOST_NET..=MOST_NET).contains(&net) && off.abs() < THOUSANDTHS_PER_STEP
}

pub(crate) fn is_quantity(steps: i32) -> bool
    ensures { result ≡ quantity_ok steps }
{
    (1..=MOST_STEPS).contains(&steps)
}

pub(crate) fn is_account(account: i32) -> bool
    ensures { result ≡ account_ok account }
{
    (FIRST_ACCOUNT..=LAST_ACCOUNT).contains(&account)
}

pub(crate) fn is_percentage(least: i32) -> bool
    ensures { result ≡ least_ok least }
{
    (1..=100).contains(&least)
}

pub(crate) fn is_span(intervals: usize, first: i32, last: i32) -> bool
    ensures { result ≡ span_ok intervals first last }
{
    is_in_day(intervals, i64::from(first)) && is_in_day(intervals, i64::from(last)) && first <= last
}

/// What a day may be started with: 1 for the minutes of an interval, then 2 for their count.
pub fn check_start(minutes: i32, count: i32) -> Result<(), Refusal>
    ensures { result ≡ start_bounds minutes count }
{
    if !is_minutes(minutes) {
        return Err(Refusal::Minutes);
    }
    if !is_count(count) {
        return Err(Refusal::Count);
    }
    Ok(())
}

/// The terms of an interval in a day of so many: 3 for the interval, 4 for the price, 5 for the net position.
pub fn check_terms(
    intervals: usize,
    interval: i32,
    price: i32,
    net: i32,
    rounded: i32,
) -> Result<(), Refusal>
    ensures { result ≡ terms_bounds intervals interval price net rounded }
{
    if !is_in_day(intervals, i64::from(interval)) {
        return Err(Refusal::NoInterval);
    }
    if !is_price(price) {
        return Err(Refusal::Price);
    }
    if !is_net(net, rounded) {
        return Err(Refusal::NetPosition);
    }
    Ok(())
}

// A run of the settling calls on a day whose cuts cannot reach its gap, so that a remainder is left.
ghost use Rattle.std.specs.Prelude.{◌≡◌, ◌+ℤ◌, IfOk};
ghost use Rattle.ledger.specs.Model.{total};
ghost use Rattle.engine.specs.Booking.{open_worth};
ghost use Rattle.engine.specs.Steps.{paper_of, state_of};
ghost use Rattle.worked_day.specs.Kept.{KeepsLaw};

use super::accounts::{FIRMS, open_ledger};
use anyhow::anyhow;
use cuts::candidates::{BlockCandidate, Lists, OrderCandidate};
use engine::book::Closed;
use engine::book::calls::start;
use engine::call::{Call, Outcome};
use engine::day::Day;
use entries::Work;
use ledger::{Ledger, sum_of_balances};
use market::records::{Book, Fills, Market, Order, Side};
use runs::play::{Played, Unplayed, play};

const PRICE: i32 = 5_000;

const NET: i32 = 50;

const ROUNDED: i32 = 0;

const ENTRIES: usize = 4;

const SELL: Order = Order {
    side: Side::Sell,
    interval: 1,
    limit: PRICE,
    quantity: 10,
    market: Market::Spot,
    stamp: 100,
    account: 11,
};

// Three sells at the price, each filled by half a step, and a buy of a full one: each sell rounds to a step, and none can be cut.
const ORDERS: [Order; ENTRIES] = [
    SELL,
    SELL,
    Order {
        account: 12,
        ..SELL
    },
    Order {
        side: Side::Buy,
        limit: 6_000,
        quantity: 1,
        account: 13,
        ..SELL
    },
];

const FILLS: [u32; ENTRIES] = [50, 50, 50, 100];

const CALLS: [Call; 9] = [
    Call::Settle { interval: 1 },
    Call::Settle { interval: 1 },
    Call::Note {
        interval: 1,
        steps: 2,
    },
    Call::TakeUp { interval: 1 },
    Call::Book {
        interval: 1,
        steps: 1,
    },
    Call::Book {
        interval: 1,
        steps: 2,
    },
    Call::Void { interval: 1 },
    Call::Settle { interval: 1 },
    Call::Book {
        interval: 1,
        steps: 2,
    },
];

// What has come of the last of some calls.
struct Shown {
    outcome: Outcome,
    open: i64,
    sum: i128,
}

// Plays calls on a paper. Whoever does so on a paper that passes has the law of every run; so the accounts add up: the sum of all balances
// has moved by just what the day shows as open.
fn play_on<L: Ledger>(
    closed: Closed,
    day: Day,
    book: Book<'_>,
    fills: Fills<'_>,
    sheet: &mut [u32],
    work: &mut Work<'_>,
    ledger: &mut L,
    calls: &[Call],
    outcomes: &mut [Outcome],
) -> Result<Played, Unplayed>
    ensures law { IfOk result (λ played. KeepsLaw (paper_of played.book book.entry.orders.now fills.entry.orders.now book.entry.blocks.now fills.entry.blocks.now) (state_of day sheet.old (L.Accounts.model ledger.old)) (state_of played.day sheet.new (L.Accounts.model ledger.new))) }
    ensures adds { IfOk result (λ played. total (L.Accounts.model ledger.new) ≡ total (L.Accounts.model ledger.old) +ℤ open_worth played.day) }
{
    play(
        closed, day, book, fills, sheet, work, ledger, calls, outcomes,
    )
}

fn open_day(memory: &mut [Order; ENTRIES]) -> anyhow::Result<(Day, Closed)> {
    let (mut day, mut book) = start(15, 1)?;
    book.terms(&mut day, 1, PRICE, NET, ROUNDED)?;
    for order in ORDERS {
        book.enter_order(&day, memory, order)?;
    }
    Ok((day, book.close()))
}

// Plays the calls on a fresh day over fresh accounts, and answers what came of the last one. What is still out at the end is noted, which
// leaves the open worth and every balance as they were after that call.
fn play_all(calls: &[Call]) -> anyhow::Result<Shown> {
    let mut memory = ORDERS;
    let (day, closed) = open_day(&mut memory)?;
    let mut firms = FIRMS;
    let mut ledger = open_ledger(&mut firms);
    let lists = Lists {
        orders: &mut [OrderCandidate::BLANK; ENTRIES],
        blocks: &mut [BlockCandidate::BLANK; ENTRIES],
    };
    let mut work = Work {
        numbers: &mut [0; ENTRIES],
        lists,
    };
    let mut outcomes = [Outcome::Accepted { steps: 0 }; CALLS.len()];
    let played = play_on(
        closed,
        day,
        Book::of_orders(&memory),
        Fills::of_orders(&FILLS),
        &mut [0; ENTRIES],
        &mut work,
        &mut ledger,
        calls,
        &mut outcomes,
    );
    let Ok(played) = played else {
        return Err(anyhow!("the paper should have passed"));
    };
    let last = outcomes.iter().take(calls.len()).last();
    Ok(Shown {
        outcome: *last.ok_or_else(|| anyhow!("there should be a call"))?,
        open: played.day.open_worth(),
        sum: sum_of_balances(&ledger),
    })
}

/// Plays a run of calls, and tells what came of each. A call is told by playing the run up to it.
pub(crate) fn show_run(rt: &HostRuntime) -> anyhow::Result<()> {
    println!(rt; "Calls are played on a day whose cuts do not reach its gap.")?;
    for (place, call) in CALLS.iter().enumerate() {
        let Shown { outcome, open, sum } = play_all(&CALLS[..=place])?;
        println!(rt; "  {call}: {outcome}")?;
        println!(rt; "    open worth: {open} grains, all balances together: {sum} grains")?;
    }
    Ok(())
}

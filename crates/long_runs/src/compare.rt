// What is compared after each call.
use crate::history::{History, Standing};
use crate::open_cuts::Reach;
use crate::plan::Plan;
use anyhow::{anyhow, bail};
use engine::day::Day;
use ledger::{Accounts, sum_of_balances};
use market::records::Interval;
use std::alloc::{AllocError, Global};

const MINUTES_PER_QUARTER: i32 = 15;

/// What a run is compared with: the plan of the day, the reach of each interval in their order, and the sum at the start.
#[derive(Drop)]
pub(crate) struct Expected<'a> {
    plan: &'a Plan,
    reaches: Vec<Reach>,
    start: i128,
}

/// Day, sheet and balances at a moment of a run.
#[derive(PartialEq, Eq, Debug, Drop)]
pub(crate) struct Snapshot {
    intervals: Vec<Interval>,
    sheet: Vec<u32>,
    balances: Vec<i64>,
}

impl Snapshot {
    pub(crate) fn take<L: Accounts>(
        alloc: Global,
        day: &Day,
        sheet: &[u32],
        ledger: &L,
    ) -> Result<Snapshot, AllocError> {
        let mut balances = Vec::new(alloc);
        for place in 1..=ledger.count() {
            let balance = ledger
                .account_at(place)
                .and_then(|account| ledger.balance(account));
            balances.push(balance.unwrap_or(0))?;
        }
        Ok(Snapshot {
            intervals: day.intervals().to_vec(alloc)?,
            sheet: sheet.to_vec(alloc)?,
            balances,
        })
    }
}

impl<'a> Expected<'a> {
    /// Before the first call.
    pub(crate) fn new<L: Accounts>(
        alloc: Global,
        plan: &'a Plan,
        ledger: &L,
    ) -> anyhow::Result<Expected<'a>> {
        let mut reaches = Vec::new(alloc);
        for terms in &plan.terms {
            reaches.push(Reach::of(alloc, plan, *terms)?)?;
        }
        Ok(Expected {
            plan,
            reaches,
            start: sum_of_balances(ledger),
        })
    }

    /// Compares a state with what the history says of it.
    pub(crate) fn check<L: Accounts>(
        &self,
        history: &History,
        day: &Day,
        sheet: &[u32],
        ledger: &L,
    ) -> anyhow::Result<()> {
        for (standing, reach) in history.standings.iter().zip(&self.reaches) {
            if standing.is_settled {
                self.check_balance(standing, *reach, sheet)?;
            }
        }
        let unbooked = self.unbooked_worth(history);
        let sum = sum_of_balances(ledger);
        if sum != self.start.saturating_add(unbooked) {
            bail!("the balances add up to {sum}, and the unbooked remainders to {unbooked}");
        }
        let open = day.open_worth();
        if i128::from(open) != unbooked {
            bail!("the day's open worth is {open}, and the unbooked remainders come to {unbooked}");
        }
        Ok(())
    }

    // A settled interval is out of balance by what cutting leaves of its gap: so it balances exactly when the open cuts reach the gap.
    fn check_balance(
        &self,
        standing: &Standing,
        reach: Reach,
        sheet: &[u32],
    ) -> anyhow::Result<()> {
        let interval = standing.terms.interval;
        let net = net_steps(self.plan, sheet, interval).ok_or_else(|| anyhow!(
            "the sheet has no number for an entry"
        ))?;
        let off = net.saturating_sub(i64::from(standing.terms.rounded));
        let left = reach.left();
        if off != left {
            bail!("interval {interval} is {off} steps out of balance, and {reach:?} leaves {left}");
        }
        Ok(())
    }

    // The worths of the unbooked remainders, added up.
    fn unbooked_worth(&self, history: &History) -> i128 {
        let quarters = self.plan.minutes / MINUTES_PER_QUARTER;
        let mut sum: i128 = 0;
        for standing in &history.standings {
            let steps = standing.unbooked.unwrap_or(0);
            let worth = i64::from(standing.terms.price)
                .saturating_mul(i64::from(steps))
                .saturating_mul(i64::from(quarters));
            sum = sum.saturating_add(i128::from(worth));
        }
        sum
    }
}

// Sells less buys of an interval in the sheet: a number for each order, then a row for each block with a number for each interval.
fn net_steps(plan: &Plan, sheet: &[u32], interval: i32) -> Option<i64> {
    let mut net: i64 = 0;
    for (place, order) in plan.orders.iter().enumerate() {
        if order.interval == interval {
            net = net.saturating_add(order.side.signed(*sheet.get(place)?));
        }
    }
    let column = usize::try_from(interval).ok()?.checked_sub(1)?;
    let mut row = plan.orders.len();
    for block in &plan.blocks {
        if (block.first..=block.last).contains(&interval) {
            let place = row.saturating_add(column);
            net = net.saturating_add(block.side.signed(*sheet.get(place)?));
        }
        row = row.saturating_add(plan.terms.len());
    }
    Some(net)
}

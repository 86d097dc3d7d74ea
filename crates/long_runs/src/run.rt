// A run of calls on one day, compared after each call.
use crate::calls::draw_call;
use crate::compare::{Expected, Snapshot};
use crate::dice::Dice;
use crate::history::History;
use crate::plan::Plan;
use crate::tally::Tally;
use anyhow::bail;
use cuts::candidates::{BlockCandidate, Lists, OrderCandidate};
use engine::book::calls::start;
use engine::book::{Fail, Pass, Passed};
use engine::call::{Call, Outcome};
use engine::day::Day;
use engine::running::Running;
use entries::Work;
use ledger::Ledger;
use runs::close;
use std::alloc::Global;

const CALLS: u32 = 60;

// Starts the day, enters the book and has the paper judged.
fn pass(plan: &Plan) -> anyhow::Result<(Passed, Day)> {
    let count = i32::try_from(plan.terms.len()).unwrap_or(0);
    let (mut day, mut book) = start(plan.minutes, count)?;
    for terms in &plan.terms {
        book.terms(
            &mut day,
            terms.interval,
            terms.price,
            terms.net,
            terms.rounded,
        )?;
    }
    let mut orders = plan.orders.clone()?;
    for order in &plan.orders {
        book.enter_order(&day, &mut orders, *order)?;
    }
    let mut blocks = plan.blocks.clone()?;
    for block in &plan.blocks {
        book.enter_block(&day, &mut blocks, *block)?;
    }
    match book.close().judge(&day, plan.book(), plan.fills()) {
        Ok(Pass { book, .. }) => Ok((book, day)),
        Err(Fail { refusal, .. }) => bail!("the paper is refused with {refusal}: {plan:?}"),
    }
}

/// What the calls of a run read, and what they write apart from day and ledger.
#[derive(Drop)]
struct Run<'a> {
    alloc: Global,
    plan: &'a Plan,
    expected: Expected<'a>,
    history: History,
    sheet: Vec<u32>,
    numbers: Vec<u32>,
    orders: Vec<OrderCandidate>,
    blocks: Vec<BlockCandidate>,
}

impl<'a> Run<'a> {
    fn new<L: Ledger>(alloc: Global, plan: &'a Plan, ledger: &L) -> anyhow::Result<Run<'a>> {
        Ok(Run {
            alloc,
            plan,
            expected: Expected::new(alloc, plan, ledger)?,
            history: History::new(alloc, &plan.terms)?,
            sheet: vec![in alloc; 0; plan.sheet_len()]?,
            numbers: vec![in alloc; 0; plan.entries()]?,
            orders: vec![in alloc; OrderCandidate::BLANK; plan.entries()]?,
            blocks: vec![in alloc; BlockCandidate::BLANK; plan.entries()]?,
        })
    }

    fn carry_out<L: Ledger>(
        &mut self,
        running: &mut Running,
        ledger: &mut L,
        call: Call,
    ) -> Outcome {
        let lists = Lists {
            orders: &mut self.orders,
            blocks: &mut self.blocks,
        };
        let mut work = Work {
            numbers: &mut self.numbers,
            lists,
        };
        let outcome = running.carry_out(
            self.plan.book(),
            self.plan.fills(),
            &mut self.sheet,
            &mut work,
            ledger,
            call,
        );
        self.history.record(call, outcome);
        outcome
    }

    // Carries a call out, and compares what it leaves.
    fn step<L: Ledger>(
        &mut self,
        running: &mut Running,
        ledger: &mut L,
        call: Call,
    ) -> anyhow::Result<Outcome> {
        let before = Snapshot::take(self.alloc, running.day(), &self.sheet, ledger)?;
        let outcome = self.carry_out(running, ledger, call);
        if let Outcome::Refused(refusal) = outcome {
            let after = Snapshot::take(self.alloc, running.day(), &self.sheet, ledger)?;
            if after != before {
                bail!("refused with {refusal}, the call has made {after:?} of {before:?}");
            }
        }
        self.expected
            .check(&self.history, running.day(), &self.sheet, ledger)?;
        Ok(outcome)
    }
}

// Tells the case in which something differs.
fn show_case(rt: &impl Print, plan: &Plan, history: &History, call: Call) -> anyhow::Result<()> {
    println!(rt; "The day: {plan:?}.")?;
    println!(rt; "What the history says: {history:?}.")?;
    println!(rt; "The call: {call:?}.")?;
    Ok(())
}

fn carry_out_all<L: Ledger>(
    rt: &impl Print,
    dice: &mut Dice,
    run: &mut Run<'_>,
    running: &mut Running,
    ledger: &mut L,
    tally: &mut Tally,
) -> anyhow::Result<()> {
    let count = u32::try_from(run.plan.terms.len()).unwrap_or(0);
    let mut last = None;
    for _ in 0..CALLS {
        let call = draw_call(dice, count, &run.history, last);
        match run.step(running, ledger, call) {
            Ok(outcome) => tally.add(call, outcome)?,
            Err(difference) => {
                show_case(rt, run.plan, &run.history, call)?;
                return Err(difference);
            }
        }
        last = Some(call);
    }
    Ok(())
}

/// Plays a run of calls on a day, over a ledger.
pub(crate) fn play_day<L: Ledger>(
    rt: &impl Print,
    alloc: Global,
    dice: &mut Dice,
    ledger: &mut L,
    tally: &mut Tally,
) -> anyhow::Result<()> {
    let plan = Plan::draw(alloc, dice)?;
    let (passed, day) = pass(&plan)?;
    let mut run = Run::new(alloc, &plan, ledger)?;
    // From here on something may be out, so nothing returns before the run is closed.
    let mut running = passed.begin(day);
    let played = carry_out_all(rt, dice, &mut run, &mut running, ledger, tally);
    let (_, day) = close(running);
    played?;
    run.expected.check(&run.history, &day, &run.sheet, ledger)?;
    tally.add_day();
    Ok(())
}

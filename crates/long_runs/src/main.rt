// Long runs of the settling calls on many days, from fixed seeds: after each call balances and sums are compared with what the calls
// and their outcomes alone say.
#![tactic(auto)]

use dice::Dice;
use over::Kind;
use tally::{Accepted, Tally};

mod calls;
mod compare;
mod dice;
mod history;
mod open_cuts;
mod over;
mod plan;
mod run;
mod tally;

const KINDS: [Kind; 5] = [
    Kind::Operator,
    Kind::Table,
    Kind::LentTable,
    Kind::OperatorAndTable,
    Kind::TwoTables,
];

const SEED: u64 = 2_026;

const DAYS: u32 = 60;

// One line for a kind of ledger.
fn show(rt: &impl Print, kind: Kind, tally: &Tally) -> anyhow::Result<()> {
    let Tally {
        days,
        calls,
        over,
        under,
        ..
    } = tally;
    print!(rt; "{kind}: {days} days, {calls} calls. Accepted: ")?;
    let Accepted {
        settled,
        booked,
        noted,
        taken_up,
        voided,
    } = tally.accepted;
    print!(rt;
        "settle {settled} (with a remainder above 0 {over}, below 0 {under}), book {booked}, note {noted}, take up {taken_up}, void {voided}."
    )?;
    show_refusals(rt, tally)
}

fn show_refusals(rt: &impl Print, tally: &Tally) -> anyhow::Result<()> {
    print!(rt; " Refused:")?;
    for (place, (number, count)) in tally.refusals.iter().enumerate() {
        if place > 0 {
            print!(rt; ",")?;
        }
        print!(rt; " {count} times with {number}")?;
    }
    println!(rt; ".")?;
    Ok(())
}

fn play_all<R: Print + AllocGlobal>(rt: &R) -> anyhow::Result<()> {
    for (stream, kind) in (1u64..).zip(KINDS) {
        let mut dice = Dice::new(SEED, stream);
        let mut tally = Tally::new(rt.alloc());
        for _ in 0..DAYS {
            kind.play(rt, rt.alloc(), &mut dice, &mut tally)?;
        }
        show(rt, kind, &tally)?;
    }
    Ok(())
}

fn main(rt: HostRuntime) -> anyhow::Result<()> {
    play_all(&rt)
}

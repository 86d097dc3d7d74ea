// Judging a paper and carrying out any list of calls on it.
ghost use Rattle.std.specs.Prelude.{◌≡◌};
ghost use Rattle.entries.specs.Settles.{SameSlices};
ghost use Rattle.runs.specs.Plays.{nothing_settled, playable, Playing};

use super::calls::{carry_out_all, close};
use engine::book::{Closed, Fail, Pass, Passed};
use engine::call::{Call, Outcome};
use engine::day::Day;
use engine::refusal::Refusal;
use entries::Work;
use ledger::Ledger;
use market::records::{Book, Fills, Mark};
use market::refusal::Refusal as MarketRefusal;

/// A paper that passed, and the day after the calls.
#[derive(Drop)]
pub struct Played {
    pub book: Passed,
    pub day: Day,
    pub welfare: i64,
}

/// Why nothing was played, with the closed book and the day back.
#[derive(Drop)]
pub struct Unplayed {
    pub refusal: Refusal,
    pub book: Closed,
    pub day: Day,
}

fn is_unsettled(day: &Day) -> bool
    ensures { result ≡ nothing_settled day.now }
{
    day.intervals()
        .iter()
        .all(|record| record.mark == Mark::Unsettled)
}

// 19 where something of the day is settled, 11 where there are fewer outcomes than calls.
fn check(day: &Day, calls: usize, outcomes: usize) -> Result<(), Refusal>
    ensures { result ≡ playable day.now calls outcomes }
{
    if !is_unsettled(day) {
        return Err(Refusal::NotUnsettled);
    }
    if calls > outcomes {
        return Err(Refusal::Market(MarketRefusal::Short));
    }
    Ok(())
}

/// Judges a paper on a closed book and, where it passes, carries out calls on the day one after the other, each whatever came of those
/// before it. The first of the outcomes are what came of them. At the end whatever is still out is noted, so that nothing lapses.
///
/// Refused with 19 where something of the day is settled; with 11 where there are fewer outcomes than calls; and as judging refuses:
/// then the closed book and the day come back, and all is as it was.
pub fn play<L: Ledger>(
    closed: Closed,
    day: Day,
    memory: Book<'_>,
    fills: Fills<'_>,
    sheet: &mut [u32],
    work: &mut Work<'_>,
    ledger: &mut L,
    calls: &[Call],
    outcomes: &mut [Outcome],
) -> Result<Played, Unplayed>
    ensures plays { Playing closed day memory.entry.orders.now fills.entry.orders.now memory.entry.blocks.now fills.entry.blocks.now calls.now outcomes.old sheet.old (L.Accounts.model ledger.old) result outcomes.new sheet.new (L.Accounts.model ledger.new) }
    ensures keeps { L.Ledger.kept ledger.old ledger.new }
    ensures slices { SameSlices work.old work.new }
{
    if let Err(refusal) = check(&day, calls.len(), outcomes.len()) {
        return Err(Unplayed {
            refusal,
            book: closed,
            day,
        });
    }
    match closed.judge(&day, memory, fills) {
        Err(Fail { refusal, book }) => Err(Unplayed {
            refusal: refusal.into(),
            book,
            day,
        }),
        Ok(Pass { book, welfare }) => {
            let mut running = book.begin(day);
            carry_out_all(
                &mut running,
                memory,
                fills,
                sheet,
                work,
                ledger,
                calls,
                outcomes,
            );
            let (book, day) = close(running);
            Ok(Played { book, day, welfare })
        }
    }
}

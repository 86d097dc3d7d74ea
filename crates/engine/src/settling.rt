// Settling an interval on a passed book.
ghost use Rattle.entries.specs.Settles.{work_lengths, SameSlices};
ghost use Rattle.engine.specs.declared.call.Call.TheVariants.{Settle};
ghost use Rattle.engine.specs.Marks.{Hands};
ghost use Rattle.engine.specs.Settling.{Moves};
ghost use Rattle.engine.specs.Steps.{paper_of, state_of, Takes, handing};

use super::book::Passed;
use super::day::Day;
use super::refusal::Refusal;
use super::remainder::Remainder;
use entries::{Work, settle_interval};
use ledger::Ledger;
use market::records::{Book, Fills, Mark};

impl Passed {
    /// Settles an interval by the passed paper and hands its remainder over, also when it is 0.
    ///
    /// The settled numbers of the interval's entries go into the sheet, their amounts to the accounts of the entries, plus for sells
    /// and minus for buys, and last minus the amount of the rounded net position to account 0. Refused with 3; 19 where the interval
    /// is not unsettled; 11, 12, 13; 20 or 21 of the first refused posting: then all is as it was. The working slices may end with any
    /// contents.
    pub fn settle<L: Ledger>(
        &self,
        day: &mut Day,
        memory: Book<'_>,
        fills: Fills<'_>,
        sheet: &mut [u32],
        work: &mut Work<'_>,
        ledger: &mut L,
        interval: i32,
    ) -> Result<Remainder, Refusal>
        ensures step { Takes (paper_of self.now memory.entry.orders.now fills.entry.orders.now memory.entry.blocks.now fills.entry.blocks.now) (work_lengths work.old) (state_of day.old sheet.old (L.Accounts.model ledger.old)) (Settle interval) (handing result) (state_of day.new sheet.new (L.Accounts.model ledger.new)) }
        ensures hands { Hands interval result }
        ensures moves { Moves day.old interval result (L.Accounts.model ledger.old) (L.Accounts.model ledger.new) }
        ensures keeps { L.Ledger.kept ledger.old ledger.new }
        ensures slices { SameSlices work.old work.new }
    {
        let book = self.usable(
            day,
            memory,
            interval,
            Mark::Unsettled,
            Refusal::NotUnsettled,
        )?;
        let terms = day.terms_of(day.record(interval));
        let steps = settle_interval(
            book,
            fills,
            day.count(),
            interval as u32,
            terms,
            sheet,
            work,
            ledger,
        )?;
        day.put_state(interval, Mark::Out, steps);
        Ok(Remainder { interval, steps })
    }
}

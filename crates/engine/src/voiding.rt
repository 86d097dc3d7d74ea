// Voiding an interval on a passed book.
ghost use Rattle.std.specs.Prelude.{ℕ, List};
ghost use Rattle.entries.specs.Settles.{WorkLengths};
ghost use Rattle.engine.specs.declared.call.Call.TheVariants.{Void};
ghost use Rattle.engine.specs.Steps.{paper_of, state_of, Takes, voiding};

use super::book::Passed;
use super::day::Day;
use super::refusal::Refusal;
use entries::void_interval;
use ledger::Ledger;
use market::records::{Book, Mark};

const NO_STEPS: i32 = 0;

impl Passed {
    /// Voids a closed interval: posts the opposite of booking and of settling it in opposite order, by its numbers in the sheet,
    /// zeroes these, and makes it unsettled with remainder 0.
    ///
    /// Refused with 3; 24 where the interval is not closed; 11; 12; 13 for a number in the sheet above its quantity, at the lowest
    /// entry; 20 or 21 of the first refused posting: then all is as it was.
    pub fn void<L: Ledger>(
        &self,
        day: &mut Day,
        memory: Book<'_>,
        sheet: &mut [u32],
        ledger: &mut L,
        interval: i32,
    ) -> Result<(), Refusal>
        ensures step { (fs gs : List ℕ) (w : WorkLengths) → Takes (paper_of self.now memory.entry.orders.now fs memory.entry.blocks.now gs) w (state_of day.old sheet.old (L.Accounts.model ledger.old)) (Void interval) (voiding result) (state_of day.new sheet.new (L.Accounts.model ledger.new)) }
        ensures keeps { L.Ledger.kept ledger.old ledger.new }
    {
        let book = self.usable(day, memory, interval, Mark::Closed, Refusal::NotClosed)?;
        let record = day.record(interval);
        void_interval(
            book,
            day.count(),
            interval as u32,
            day.terms_of(record),
            record.remainder,
            sheet,
            ledger,
        )?;
        day.put_state(interval, Mark::Unsettled, NO_STEPS);
        Ok(())
    }
}

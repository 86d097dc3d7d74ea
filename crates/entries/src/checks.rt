// What is looked at before an interval is settled or voided.
ghost use Rattle.std.specs.Prelude.{◌≡◌, ◌+◌, ◌<◌, length, pos};
ghost use Rattle.market.specs.Bounds.{in_day};
ghost use Rattle.entries.specs.Settles.{settlement_of, lengths, work_lengths, sheet_ok, work_ok, settle_checks};
ghost use Rattle.entries.specs.Voids.{reversal_of, Voidable, number_rule, first_from, void_checks};

use super::book::quantity_at;
use super::delivery::Delivery;
use super::task::Task;
use super::undo::Undo;
use super::work::Work;
use market::bounds::is_in_day;
use market::refusal::Refusal;
use verdict::{check_book, check_paper};

impl Delivery<'_> {
    // Whether the day has the interval.
    fn is_in_day(self) -> bool
        ensures { result ≡ in_day self.entry.intervals (pos self.entry.interval) }
    {
        is_in_day(self.intervals, i64::from(self.interval))
    }

    // Whether a sheet of that size has a place for each order and each block and interval.
    fn has_sheet(self, size: usize) -> bool
        ensures { result ≡ sheet_ok (length self.entry.book.orders.now) (length self.entry.book.blocks.now) self.entry.intervals size }
    {
        self.book.is_within_limits_in(self.intervals)
            && self.book.orders.len() + self.book.blocks.len() * self.intervals <= size
    }
}

impl Work<'_> {
    // Whether these slices suffice for that many entries.
    fn suffices(&self, entries: usize) -> bool
        ensures { result ≡ work_ok entries (work_lengths self.now) }
    {
        entries <= self.numbers.len()
            && entries <= self.lists.orders.len()
            && entries <= self.lists.blocks.len()
    }
}

impl Task<'_> {
    /// 3 for an interval that the day does not have; 11 for a slice that is too short, more records or intervals than there can be,
    /// or another number of fills than of entries; 12 for a record outside the bounds of entry; 13 for a fill above its quantity.
    #[tactic(auto, unfolding(crate::specs::Settles::settle_checks))]
    pub(crate) fn check(self, sheet: &[u32], work: &Work<'_>) -> Result<(), Refusal>
        ensures { result ≡ settle_checks (settlement_of self.entry) (lengths sheet.now work.now) }
    {
        let delivery = self.delivery;
        if !delivery.is_in_day() {
            return Err(Refusal::NoInterval);
        }
        if !delivery.has_sheet(sheet.len()) || !work.suffices(delivery.entries()) {
            return Err(Refusal::Short);
        }
        check_paper(delivery.intervals, delivery.book, self.fills)
    }
}

impl Undo<'_> {
    // 13 for a number in the sheet above the quantity of its entry.
    fn check_number(self, sheet: &[u32], place: usize) -> Result<(), Refusal>
        requires place { place < length self.delivery.book.orders.now + length self.delivery.book.blocks.now }
        requires voidable { Voidable (reversal_of self) (length sheet.now) }
        ensures { result ≡ number_rule (reversal_of self.entry) sheet.now place }
    {
        let number = self.delivery.number_at(sheet, place);
        if i64::from(number) > i64::from(quantity_at(self.delivery.book, place)) {
            return Err(Refusal::OverQuantity {
                entry: place as u32 + 1,
            });
        }
        Ok(())
    }

    // 13 at the lowest entry.
    #[tactic(auto, using(crate::proofs::Refusing::from_next))]
    fn check_numbers(self, sheet: &[u32]) -> Result<(), Refusal>
        requires { Voidable (reversal_of self) (length sheet.now) }
        ensures { result ≡ first_from (number_rule (reversal_of self.entry) sheet.now) 0 (length self.entry.delivery.book.orders.now + length self.entry.delivery.book.blocks.now) }
    {
        for place in 0..self.delivery.entries() {
            self.check_number(sheet, place)?;
        }
        Ok(())
    }

    /// 3 for an interval that the day does not have; 11 for a sheet that is too short, or more records or intervals than there can be;
    /// 12 for a record outside the bounds of entry; 13 for a number in the sheet above the quantity of its entry.
    #[tactic(auto, unfolding(crate::specs::Voids::void_checks))]
    pub(crate) fn check(self, sheet: &[u32]) -> Result<(), Refusal>
        ensures { result ≡ void_checks (reversal_of self.entry) sheet.now }
    {
        let delivery = self.delivery;
        if !delivery.is_in_day() {
            return Err(Refusal::NoInterval);
        }
        if !delivery.has_sheet(sheet.len()) {
            return Err(Refusal::Short);
        }
        check_book(delivery.intervals, delivery.book)?;
        self.check_numbers(sheet)
    }
}

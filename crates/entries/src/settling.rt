// Settling an interval over slices and any ledger.
ghost use Rattle.std.specs.Prelude.{◌≡◌, ◌+◌, ◌≤◌, length, take};
ghost use Rattle.posting.specs.Postings.{answers, left};
ghost use Rattle.entries.specs.Amounts.{conditions};
ghost use Rattle.entries.specs.Sheet.{Laid};
ghost use Rattle.entries.specs.Settles.{settlement, settlement_of, work_lengths, lengths, Ready, SizedFor, settle_list, settle_numbers, settle_steps};
ghost use Rattle.entries.specs.Settles.{carried_answer, carried_sheet, settle_answer, settled_accounts, settled_sheet, Moved, SameSlices};

use super::delivery::Delivery;
use super::postings::Settling;
use super::refused::SettleRefused;
use super::task::Task;
use super::terms::Terms;
use super::work::Work;
use cuts::settled::settled_numbers;
use ledger::{Ledger, PostRefused};
use market::records::{Book, Fills};
use posting::post_all;

impl Task<'_> {
    // The settled numbers of the entries, and the remainder.
    fn settle_numbers(self, work: &mut Work<'_>) -> i32
        requires { SizedFor (settlement_of self) (work_lengths work.old) }
        ensures steps { result ≡ settle_steps (settlement_of self.entry) }
        ensures slices { SameSlices work.old work.new }
        ensures numbers { take (length self.entry.delivery.book.orders.now + length self.entry.delivery.book.blocks.now) work.new.numbers.now ≡ settle_numbers (settlement_of self.entry) }
    {
        let steps = settled_numbers(
            self.delivery.book,
            self.fills,
            self.delivery.interval,
            self.delivery.terms.rounded,
            &mut work.lists,
            work.numbers,
        )
        .unwrap();
        steps as i32
    }

    // Posts the settled numbers of the entries, all or none, and only then writes them.
    #[tactic(auto, unfolding(crate::specs::Amounts::settle_postings, crate::specs::Settles::settle_list, crate::specs::Settles::settle_sheet))]
    fn carry_out<L: Ledger>(
        self,
        numbers: &[u32],
        sheet: &mut [u32],
        ledger: &mut L,
    ) -> Result<(), PostRefused>
        requires few { length self.delivery.book.orders.now + length self.delivery.book.blocks.now ≤ 1088 }
        requires laid { Laid (length self.delivery.book.orders.now) (length self.delivery.book.blocks.now) self.delivery.intervals self.delivery.interval (length sheet.old) }
        requires each { length numbers.now ≡ length self.delivery.book.orders.now + length self.delivery.book.blocks.now }
        requires settled { numbers.now ≡ settle_numbers (settlement_of self) }
        ensures answers { result ≡ answers (L.Accounts.model ledger.old) (settle_list (settlement_of self.entry)) }
        ensures posts { L.Accounts.model ledger.new ≡ left (L.Accounts.model ledger.old) (settle_list (settlement_of self.entry)) }
        ensures writes { sheet.new ≡ carried_sheet (settlement_of self.entry) (L.Accounts.model ledger.old) sheet.old }
        ensures keeps { L.Ledger.kept ledger.old ledger.new }
    {
        let postings = Settling {
            delivery: self.delivery,
            numbers,
        };
        post_all(ledger, &postings)?;
        self.delivery.write(numbers, sheet);
        Ok(())
    }

    // Settles where the checks have passed.
    #[tactic(auto, using(crate::proofs::Checking::settled_long))]
    fn settle<L: Ledger>(
        self,
        sheet: &mut [u32],
        work: &mut Work<'_>,
        ledger: &mut L,
    ) -> Result<i32, SettleRefused>
        requires { Ready (settlement_of self) (lengths sheet.old work.old) }
        ensures answers { result ≡ carried_answer (settlement_of self.entry) (L.Accounts.model ledger.old) }
        ensures posts { L.Accounts.model ledger.new ≡ left (L.Accounts.model ledger.old) (settle_list (settlement_of self.entry)) }
        ensures slices { SameSlices work.old work.new }
        ensures writes { sheet.new ≡ carried_sheet (settlement_of self.entry) (L.Accounts.model ledger.old) sheet.old }
        ensures keeps { L.Ledger.kept ledger.old ledger.new }
    {
        let steps = self.settle_numbers(work);
        let entries = self.delivery.entries();
        self.carry_out(&work.numbers[..entries], sheet, ledger)?;
        Ok(steps)
    }
}

/// Settles an interval of a day of so many intervals: posts the settled numbers of its entries, all or none, then minus R's amount,
/// and only then writes the numbers into the sheet. The answer is the remainder: settled sells less settled buys less R.
///
/// Refused with 3 for an interval that the day does not have; with 11 where fills and entries differ in number, there are more
/// than 1,024 orders, 64 blocks or 100 intervals, the sheet has no place for each order and each block and interval, or a working
/// slice is shorter than the number of entries; with 12 and 13 at the lowest entry; and as the first refused posting is. A refusal
/// leaves ledger and sheet as they were. The working slices may end with any contents.
#[tactic(auto, using(crate::proofs::Readiness::ready_from))]
pub fn settle_interval<L: Ledger>(
    book: Book<'_>,
    fills: Fills<'_>,
    intervals: usize,
    interval: u32,
    terms: Terms,
    sheet: &mut [u32],
    work: &mut Work<'_>,
    ledger: &mut L,
) -> Result<i32, SettleRefused>
    ensures answers { result ≡ settle_answer (settlement book.entry fills.entry intervals interval terms) (lengths sheet.old work.old) (L.Accounts.model ledger.old) }
    ensures posts { L.Accounts.model ledger.new ≡ settled_accounts (settlement book.entry fills.entry intervals interval terms) (lengths sheet.old work.old) (L.Accounts.model ledger.old) }
    ensures writes { sheet.new ≡ settled_sheet (settlement book.entry fills.entry intervals interval terms) (lengths sheet.old work.old) (L.Accounts.model ledger.old) sheet.old }
    ensures keeps { L.Ledger.kept ledger.old ledger.new }
    ensures slices { SameSlices work.old work.new }
    ensures moves { Moved result (conditions terms) (L.Accounts.model ledger.old) (L.Accounts.model ledger.new) sheet.old sheet.new }
{
    let delivery = Delivery {
        book,
        intervals,
        interval,
        terms,
    };
    let task = Task { delivery, fills };
    task.check(sheet, work)?;
    task.settle(sheet, work, ledger)
}

// Voiding an interval over slices and any ledger.
ghost use Rattle.std.specs.Prelude.{◌≡◌, length};
ghost use Rattle.ledger.specs.Model.{if_taken};
ghost use Rattle.posting.specs.Postings.{answers, left};
ghost use Rattle.entries.specs.Voids.{reversal, reversal_of, Voidable, void_list, void_sheet, void_answer, voided_accounts, voided_sheet};

use super::delivery::Delivery;
use super::postings::Voiding;
use super::refused::SettleRefused;
use super::terms::Terms;
use super::undo::Undo;
use ledger::{Ledger, PostRefused};
use market::records::Book;
use posting::post_all;

impl Undo<'_> {
    // Posts the opposite of booking and settling, last first, all or none.
    fn post<L: Ledger>(self, sheet: &[u32], ledger: &mut L) -> Result<(), PostRefused>
        requires { Voidable (reversal_of self) (length sheet.now) }
        ensures answers { result ≡ answers (L.Accounts.model ledger.old) (void_list (reversal_of self.entry) sheet.now) }
        ensures posts { L.Accounts.model ledger.new ≡ left (L.Accounts.model ledger.old) (void_list (reversal_of self.entry) sheet.now) }
        ensures keeps { L.Ledger.kept ledger.old ledger.new }
    {
        post_all(ledger, &Voiding { undo: self, sheet })
    }

    // The same, and only then zeroes the numbers.
    #[tactic(auto, unfolding(crate::specs::Voids::void_sheet))]
    fn carry_out<L: Ledger>(self, sheet: &mut [u32], ledger: &mut L) -> Result<(), PostRefused>
        requires { Voidable (reversal_of self) (length sheet.old) }
        ensures answers { result ≡ answers (L.Accounts.model ledger.old) (void_list (reversal_of self.entry) sheet.old) }
        ensures posts { L.Accounts.model ledger.new ≡ left (L.Accounts.model ledger.old) (void_list (reversal_of self.entry) sheet.old) }
        ensures writes { sheet.new ≡ if_taken (answers (L.Accounts.model ledger.old) (void_list (reversal_of self.entry) sheet.old)) (void_sheet (reversal_of self.entry) sheet.old) sheet.old }
        ensures keeps { L.Ledger.kept ledger.old ledger.new }
    {
        self.post(sheet, ledger)?;
        self.delivery.clear(sheet);
        Ok(())
    }
}

/// Voids an interval of a day of so many, by its numbers in the sheet and the remainder that was booked: posts the opposite of booking
/// and settling, last first, all or none, and only then zeroes its numbers.
///
/// Refused with 3 for an interval that the day does not have; with 11 where there are more than 1,024 orders, 64 blocks or 100
/// intervals, or the sheet has no place for each order and each block and interval; with 12 at the lowest entry, then with 13
/// where the sheet has a number above its entry's quantity; and as the first refused posting is. A refusal leaves ledger and sheet
/// as they were.
#[tactic(auto, using(crate::proofs::Refusing::voidable_from))]
pub fn void_interval<L: Ledger>(
    book: Book<'_>,
    intervals: usize,
    interval: u32,
    terms: Terms,
    remainder: i32,
    sheet: &mut [u32],
    ledger: &mut L,
) -> Result<(), SettleRefused>
    ensures answers { result ≡ void_answer (reversal book.entry intervals interval terms remainder) sheet.old (L.Accounts.model ledger.old) }
    ensures posts { L.Accounts.model ledger.new ≡ voided_accounts (reversal book.entry intervals interval terms remainder) sheet.old (L.Accounts.model ledger.old) }
    ensures writes { sheet.new ≡ voided_sheet (reversal book.entry intervals interval terms remainder) sheet.old (L.Accounts.model ledger.old) }
    ensures keeps { L.Ledger.kept ledger.old ledger.new }
{
    let delivery = Delivery {
        book,
        intervals,
        interval,
        terms,
    };
    let undo = Undo {
        delivery,
        remainder,
    };
    undo.check(sheet)?;
    undo.carry_out(sheet, ledger)?;
    Ok(())
}

// A paper on a book, once its lengths are looked at.
ghost use Rattle.std.specs.Prelude.{◌≡◌, ◌+◌, ◌≤◌, length, Ok, Err, IfOk, MatchResult};
ghost use Rattle.verdict.specs.Verdict.{Sized, paper_lengths, quantities};

use super::rules::Quantities;
use super::walk::first_broken;
use market::records::{Book, Fills};
use market::refusal::Refusal;

/// A book with one fill to each entry, and no more entries than a book can have.
#[derive(Drop)]
pub(crate) struct Paper<'a, 'b> {
    pub book: Book<'a>,
    pub fills: Fills<'b>,
    ghost sized: { Sized book.orders.now fills.orders.now book.blocks.now fills.blocks.now },
}

// How many orders there are is asked of the book and not of a `Paper`: `bounds` has a book without fills.
/// The entry of the first block.
pub(crate) fn next_entry(book: Book<'_>) -> u32
    requires { length book.orders.now ≤ 1024 }
    ensures { result ≡ length book.entry.orders.now + 1 }
{
    book.orders.len() as u32 + 1
}

// A walk goes over the orders, and then over the blocks, in two lines where a rule is asked. One method over both would need what the
// rule asks of each as a clause, for orders and for blocks.
impl<'a, 'b> Paper<'a, 'b> {
    /// 11: the lengths, in a day of so many intervals.
    pub(crate) fn new(
        intervals: usize,
        book: Book<'a>,
        fills: Fills<'b>,
    ) -> Result<Paper<'a, 'b>, Refusal>
        ensures is { IfOk result (λ p. (p.book ≡ book.entry) × (p.fills ≡ fills.entry)) }
        ensures judged { let lengths = paper_lengths intervals book.entry.orders.now fills.entry.orders.now book.entry.blocks.now fills.entry.blocks.now
            in MatchResult result (λ _. lengths ≡ Ok tt) (λ e. lengths ≡ Err e) }
    {
        if !book.is_within_limits_in(intervals) || !fills.fit(book) {
            return Err(Refusal::Short);
        }
        Ok(Paper { book, fills })
    }

    /// 13: the quantities.
    #[tactic(auto, using(crate::proofs::Eachs::each_none))]
    pub(crate) fn check_quantities(&self) -> Result<(), Refusal>
        ensures { result ≡ quantities self.now.book.orders.now self.now.fills.orders.now self.now.book.blocks.now self.now.fills.blocks.now }
    {
        let Paper { book, fills, .. } = self;
        first_broken(&Quantities, book.orders, fills.orders, 1)?;
        first_broken(&Quantities, book.blocks, fills.blocks, next_entry(*book))
    }
}

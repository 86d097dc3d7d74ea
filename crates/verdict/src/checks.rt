// The first phases of the verdict alone, for calls that work on a paper or on a book.
ghost use Rattle.std.specs.Prelude.{◌≡◌};
ghost use Rattle.verdict.specs.Verdict.{paper_checks, book_checks};

use super::paper::Paper;
use super::phases::bounds;
use market::records::{Book, Fills};
use market::refusal::Refusal;

/// 11 for more than 100 intervals, 1,024 orders or 64 blocks, or another number of fills than of entries; 12 for a record outside
/// the bounds of entry of a day of so many intervals; 13 for a fill above its quantity.
pub fn check_paper(intervals: usize, book: Book<'_>, fills: Fills<'_>) -> Result<(), Refusal>
    ensures { result ≡ paper_checks intervals book.entry.orders.now fills.entry.orders.now book.entry.blocks.now fills.entry.blocks.now }
{
    let paper = Paper::new(intervals, book, fills)?;
    bounds(intervals, book)?;
    paper.check_quantities()
}

/// 11 for more than 100 intervals, 1,024 orders or 64 blocks; 12 for a record outside the bounds of entry of a day of so many
/// intervals.
pub fn check_book(intervals: usize, book: Book<'_>) -> Result<(), Refusal>
    ensures { result ≡ book_checks intervals book.entry.orders.now book.entry.blocks.now }
{
    if !book.is_within_limits_in(intervals) {
        return Err(Refusal::Short);
    }
    bounds(intervals, book)
}

// The verdict on a paper: its welfare, or the first rule that it breaks, and where.
#![tactic(auto)]

ghost use Rattle.std.specs.Prelude.{◌≡◌};
ghost use Rattle.verdict.specs.Best.{BestIfPassed};
ghost use Rattle.verdict.specs.Broken.{Judged};
ghost use Rattle.verdict.specs.Verdict.{verdict_of};

pub use checks::{check_book, check_paper};
use market::records::{Book, Fills, Interval};
use market::refusal::Refusal;
use phases::examine;

mod balance;
mod checks;
mod paper;
mod phases;
mod rules;
mod walk;
mod welfare;

/// The welfare of a paper that passes, or the first rule that it breaks, with its place.
///
/// 11 for more than 100 intervals, 1,024 orders or 64 blocks, or another number of fills than of entries; 12 for a record outside
/// the bounds of entry; 13 for a fill above its quantity; 14 and 15 for an order's price; 16 and 17 for a block's percentage and
/// price; 18 for an interval that does not balance.
pub fn verdict(day: &[Interval], book: Book<'_>, fills: Fills<'_>) -> Result<i64, Refusal>
    ensures exact { result ≡ verdict_of day.now book.entry.orders.now fills.entry.orders.now book.entry.blocks.now fills.entry.blocks.now }
    ensures judged { Judged day.now book.entry.orders.now fills.entry.orders.now book.entry.blocks.now fills.entry.blocks.now result }
    ensures best { BestIfPassed day.now book.entry.orders.now fills.entry.orders.now book.entry.blocks.now fills.entry.blocks.now result }
{
    examine(day, book, fills)
}

// From a book, its fills, an interval and R to the settled numbers.
ghost use Rattle.std.specs.Prelude.{◌≡◌, ℕ, ◌+◌, ◌≤◌, true, ◌&&◌, ◌++◌, length, take, drop, ℤ, if◌then◌else◌, Some, None, IfSome, is_some};
ghost use Rattle.cuts.specs.Numbers.{rounded_numbers};
ghost use Rattle.market.specs.Kinds.{orders, blocks};
ghost use Rattle.cuts.specs.Stages.{last_step, stage_cut};
ghost use Rattle.cuts.specs.SettledLaws.{Settles};
ghost use Rattle.cuts.specs.Settled.{SameLists, ranked_places, stage_of, two_stages, balance, gap_of, orders_cut, blocks_cut, settled_numbers, remainder_of, sizes_fit, lists_fit, Sizes};

use crate::candidates::Lists;
use crate::entries::Stands;
use crate::gather::{Filled, Stage, gather};
use crate::numbers::{net, write_rounded};
use crate::paper::Paper;
use crate::rank::Candidate;
use crate::stage::run_turns;
use market::records::{Block, Book, Fills, Order};

// One stage: its candidates in rank order, then their turns. The list's room is asked here as in `gather`.
fn run_stage<C: Candidate + Copy, E: Stands<C>>(
    paper: &Paper<'_, E>,
    stage: Stage,
    list: &mut [C],
    numbers: &mut [u32],
    gap: u64,
) -> u64
    requires { length paper.now.entries.now ≤ length list.old }
    ensures numbers { numbers.new ≡ (stage_cut last_step (ranked_places E.kind E.stands C.before C.place paper.now.entries.now paper.now.fills.now stage) numbers.old gap).numbers }
    ensures left { result ≡ (stage_cut last_step (ranked_places E.kind E.stands C.before C.place paper.now.entries.now paper.now.fills.now stage) numbers.old gap).left }
{
    let count = gather(paper, stage, list);
    run_turns(&list[..count], numbers, gap)
}

// The two stages of a kind of entry. The list's room is asked here as in `gather`.
fn cut_kind<C: Candidate + Copy, E: Stands<C>>(
    paper: &Paper<'_, E>,
    interval: u32,
    gap: i64,
    left: u64,
    list: &mut [C],
    numbers: &mut [u32],
) -> u64
    requires { length paper.now.entries.now ≤ length list.old }
    ensures numbers { numbers.new ≡ (two_stages last_step (λ f. ranked_places E.kind E.stands C.before C.place paper.now.entries.now paper.now.fills.now (stage_of interval gap f)) numbers.old left).numbers }
    ensures left { result ≡ (two_stages last_step (λ f. ranked_places E.kind E.stands C.before C.place paper.now.entries.now paper.now.fills.now (stage_of interval gap f)) numbers.old left).left }
{
    let partly = Stage {
        interval,
        gap,
        filled: Filled::Partly,
    };
    let full = Stage {
        filled: Filled::Full,
        ..partly
    };
    let left = run_stage(paper, partly, list, numbers, left);
    run_stage(paper, full, list, numbers, left)
}

fn sizes_fit(book: Book<'_>, fills: Fills<'_>, numbers: usize) -> bool
    ensures { result ≡ sizes_fit (length book.entry.orders.now) (length fills.entry.orders.now) (length book.entry.blocks.now) (length fills.entry.blocks.now) numbers }
{
    book.is_within_limits() && fills.fit(book) && book.orders.len() + book.blocks.len() <= numbers
}

fn lists_fit(book: Book<'_>, order_list: usize, block_list: usize) -> bool
    ensures { result ≡ lists_fit (length book.entry.orders.now) order_list (length book.entry.blocks.now) block_list }
{
    book.orders.len() <= order_list && book.blocks.len() <= block_list
}

// An interval of a book, R, and a paper that fits the book. That the lent numbers and lists have room stays a clause of each method:
// a struct that held them would have every clause say that the book and the fills stay as they are.
#[derive(Drop)]
struct Rounding<'a> {
    book: Book<'a>,
    fills: Fills<'a>,
    interval: u32,
    rounded: i32,
    ghost fits: { Sizes (length book.orders.now) (length fills.orders.now) (length book.blocks.now) (length fills.blocks.now) (length book.orders.now + length book.blocks.now) },
}

// The numbers are not split in two by `split_at_mut`: what stands behind them would have to be carried as a third part.
impl<'a> Rounding<'a> {
    // Where the slices fit one another, and there is a number for each entry.
    fn new(
        book: Book<'a>,
        fills: Fills<'a>,
        interval: u32,
        rounded: i32,
        numbers: usize,
    ) -> Option<Rounding<'a>>
        ensures fits { is_some result ≡ sizes_fit (length book.entry.orders.now) (length fills.entry.orders.now) (length book.entry.blocks.now) (length fills.entry.blocks.now) numbers }
        ensures holds { IfSome result (λ r. (r.book ≡ book.entry) × (r.fills ≡ fills.entry) × (r.interval ≡ interval) × (r.rounded ≡ rounded)) }
    {
        if !sizes_fit(book, fills, numbers) {
            return None;
        }
        Some(Rounding {
            book,
            fills,
            interval,
            rounded,
        })
    }

    fn orders(&self) -> Paper<'_, Order>
        ensures entries { result.entries.now ≡ self.now.book.orders.now }
        ensures fills { result.fills.now ≡ self.now.fills.orders.now }
    {
        Paper {
            entries: self.book.orders,
            fills: self.fills.orders,
        }
    }

    fn blocks(&self) -> Paper<'_, Block>
        ensures entries { result.entries.now ≡ self.now.book.blocks.now }
        ensures fills { result.fills.now ≡ self.now.fills.blocks.now }
    {
        Paper {
            entries: self.book.blocks,
            fills: self.fills.blocks,
        }
    }

    // Writes the rounded numbers, those of the orders first.
    fn write(&self, numbers: &mut [u32])
        requires { length self.now.book.orders.now + length self.now.book.blocks.now ≤ length numbers.old }
        ensures { numbers.new ≡ rounded_numbers orders self.now.interval self.now.book.orders.now self.now.fills.orders.now ++ (rounded_numbers blocks self.now.interval self.now.book.blocks.now self.now.fills.blocks.now ++ drop (length self.now.book.orders.now + length self.now.book.blocks.now) numbers.old) }
    {
        let count = self.book.orders.len();
        let end = count + self.book.blocks.len();
        write_rounded(&self.orders(), self.interval, &mut numbers[..count]);
        write_rounded(&self.blocks(), self.interval, &mut numbers[count..end]);
    }

    // Sells less buys less R.
    fn balance(&self, numbers: &[u32]) -> i64
        requires { length self.now.book.orders.now + length self.now.book.blocks.now ≤ length numbers.now }
        ensures { result ≡ balance self.now.book.orders.now self.now.book.blocks.now (take (length self.now.book.orders.now) numbers.now) (take (length self.now.book.blocks.now) (drop (length self.now.book.orders.now) numbers.now)) self.now.rounded }
    {
        let count = self.book.orders.len();
        let end = count + self.book.blocks.len();
        net(self.book.orders, &numbers[..count]) + net(self.book.blocks, &numbers[count..end])
            - i64::from(self.rounded)
    }

    // Cuts the rounded numbers: those of the orders, then with what is left of the gap those of the blocks.
    fn cut(&self, gap: i64, lists: &mut Lists<'_>, numbers: &mut [u32])
        requires room { length self.now.book.orders.now + length self.now.book.blocks.now ≤ length numbers.old }
        requires lists { (length self.now.book.orders.now ≤ length lists.old.orders.now) × (length self.now.book.blocks.now ≤ length lists.old.blocks.now) }
        requires orders { take (length self.now.book.orders.now) numbers.old ≡ rounded_numbers orders self.now.interval self.now.book.orders.now self.now.fills.orders.now }
        requires blocks { take (length self.now.book.blocks.now) (drop (length self.now.book.orders.now) numbers.old) ≡ rounded_numbers blocks self.now.interval self.now.book.blocks.now self.now.fills.blocks.now }
        ensures same { SameLists lists.old lists.new }
        ensures numbers { numbers.new ≡ (orders_cut self.now.book.orders.now self.now.fills.orders.now self.now.interval gap).numbers ++ ((blocks_cut self.now.book.blocks.now self.now.fills.blocks.now self.now.interval gap (orders_cut self.now.book.orders.now self.now.fills.orders.now self.now.interval gap).left).numbers ++ drop (length self.now.book.orders.now + length self.now.book.blocks.now) numbers.old) }
    {
        let count = self.book.orders.len();
        let end = count + self.book.blocks.len();
        let left = cut_kind(
            &self.orders(),
            self.interval,
            gap,
            gap.unsigned_abs(),
            lists.orders,
            &mut numbers[..count],
        );
        let _ = cut_kind(
            &self.blocks(),
            self.interval,
            gap,
            left,
            lists.blocks,
            &mut numbers[count..end],
        );
    }

    // The rounded numbers, and the gap.
    fn round(&self, numbers: &mut [u32]) -> i64
        requires { length self.now.book.orders.now + length self.now.book.blocks.now ≤ length numbers.old }
        ensures gap { result ≡ gap_of self.now.book.orders.now self.now.fills.orders.now self.now.book.blocks.now self.now.fills.blocks.now self.now.interval self.now.rounded }
        ensures numbers { numbers.new ≡ rounded_numbers orders self.now.interval self.now.book.orders.now self.now.fills.orders.now ++ (rounded_numbers blocks self.now.interval self.now.book.blocks.now self.now.fills.blocks.now ++ drop (length self.now.book.orders.now + length self.now.book.blocks.now) numbers.old) }
    {
        self.write(numbers);
        self.balance(numbers)
    }

    // The settled numbers, and the remainder.
    fn settle(&self, lists: &mut Lists<'_>, numbers: &mut [u32]) -> i64
        requires room { length self.now.book.orders.now + length self.now.book.blocks.now ≤ length numbers.old }
        requires lists { (length self.now.book.orders.now ≤ length lists.old.orders.now) × (length self.now.book.blocks.now ≤ length lists.old.blocks.now) }
        ensures same { SameLists lists.old lists.new }
        ensures remainder { result ≡ remainder_of self.now.book.orders.now self.now.fills.orders.now self.now.book.blocks.now self.now.fills.blocks.now self.now.interval self.now.rounded }
        ensures numbers { numbers.new ≡ settled_numbers self.now.book.orders.now self.now.fills.orders.now self.now.book.blocks.now self.now.fills.blocks.now self.now.interval self.now.rounded ++ drop (length self.now.book.orders.now + length self.now.book.blocks.now) numbers.old }
    {
        let gap = self.round(numbers);
        self.cut(gap, lists, numbers);
        self.balance(numbers)
    }
}

/// Writes the rounded number of each order, then of each block, 0 for those that are not of the interval, and answers the gap:
/// sells less buys less R. `None`, and nothing written, where the slices do not fit one another.
pub fn rounded_numbers(
    book: Book<'_>,
    fills: Fills<'_>,
    interval: u32,
    rounded: i32,
    numbers: &mut [u32],
) -> Option<i64>
    ensures gap { result ≡ (if sizes_fit (length book.entry.orders.now) (length fills.entry.orders.now) (length book.entry.blocks.now) (length fills.entry.blocks.now) (length numbers.old) then Some (gap_of book.entry.orders.now fills.entry.orders.now book.entry.blocks.now fills.entry.blocks.now interval rounded) else None) }
    ensures numbers { numbers.new ≡ (if sizes_fit (length book.entry.orders.now) (length fills.entry.orders.now) (length book.entry.blocks.now) (length fills.entry.blocks.now) (length numbers.old) then rounded_numbers orders interval book.entry.orders.now fills.entry.orders.now ++ (rounded_numbers blocks interval book.entry.blocks.now fills.entry.blocks.now ++ drop (length book.entry.orders.now + length book.entry.blocks.now) numbers.old) else numbers.old) }
{
    let rounding = Rounding::new(book, fills, interval, rounded, numbers.len())?;
    Some(rounding.round(numbers))
}

/// Writes the settled number of each order, then of each block, 0 for those that are not of the interval, and answers the
/// remainder: settled sells less settled buys less R. `None`, and nothing written, where the slices do not fit one another.
pub fn settled_numbers(
    book: Book<'_>,
    fills: Fills<'_>,
    interval: u32,
    rounded: i32,
    lists: &mut Lists<'_>,
    numbers: &mut [u32],
) -> Option<i64>
    ensures same { SameLists lists.old lists.new }
    ensures remainder { result ≡ (if sizes_fit (length book.entry.orders.now) (length fills.entry.orders.now) (length book.entry.blocks.now) (length fills.entry.blocks.now) (length numbers.old) && lists_fit (length book.entry.orders.now) (length lists.old.orders.now) (length book.entry.blocks.now) (length lists.old.blocks.now) then Some (remainder_of book.entry.orders.now fills.entry.orders.now book.entry.blocks.now fills.entry.blocks.now interval rounded) else None) }
    ensures numbers { numbers.new ≡ (if sizes_fit (length book.entry.orders.now) (length fills.entry.orders.now) (length book.entry.blocks.now) (length fills.entry.blocks.now) (length numbers.old) && lists_fit (length book.entry.orders.now) (length lists.old.orders.now) (length book.entry.blocks.now) (length lists.old.blocks.now) then settled_numbers book.entry.orders.now fills.entry.orders.now book.entry.blocks.now fills.entry.blocks.now interval rounded ++ drop (length book.entry.orders.now + length book.entry.blocks.now) numbers.old else numbers.old) }
    ensures refused { result ≡ None → (lists.new.orders.now ≡ lists.old.orders.now) × (lists.new.blocks.now ≡ lists.old.blocks.now) }
    ensures laws { Settles book.entry.orders.now fills.entry.orders.now book.entry.blocks.now fills.entry.blocks.now interval rounded }
{
    let rounding = Rounding::new(book, fills, interval, rounded, numbers.len())?;
    if !lists_fit(book, lists.orders.len(), lists.blocks.len()) {
        return None;
    }
    Some(rounding.settle(lists, numbers))
}

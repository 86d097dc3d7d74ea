// The numbers of an interval, one for each entry of a kind.
ghost use Rattle.std.specs.Prelude.{◌≡◌, ℕ, ◌*◌, ◌≤◌, length};
ghost use Rattle.market.specs.Signed.{Within};
ghost use Rattle.cuts.specs.Numbers.{number, rounded_numbers, net};

use crate::paper::Paper;
use crate::rounding::nearest;
use market::entry::Entry;

fn number<E: Entry>(interval: u32, entry: &E, fill: u32) -> u32
    ensures { result ≡ number E.kind interval entry.now fill }
{
    if entry.covers(interval) {
        nearest(fill)
    } else {
        0
    }
}

// Writes the rounded number of each entry, by index: of a chain on `iter_mut()` a proof knows the length alone, and no element.
pub(crate) fn write_rounded<E: Entry>(paper: &Paper<'_, E>, interval: u32, numbers: &mut [u32])
    requires { length numbers.old ≡ length paper.now.entries.now }
    ensures { numbers.new ≡ rounded_numbers E.kind interval paper.now.entries.now paper.now.fills.now }
{
    for (place, (entry, fill)) in paper.entries.iter().zip(paper.fills).enumerate() {
        numbers[place] = number(interval, entry, *fill);
    }
}

// Sells less buys. The sum has signs, so that no bound on `sum` is known: a loop keeps it. How many entries there are is asked here: the
// numbers are lent beside a book, and no `Paper`, which holds fills, has both.
pub(crate) fn net<E: Entry>(entries: &[E], numbers: &[u32]) -> i64
    requires same { length numbers.now ≡ length entries.now }
    requires few { length entries.now ≤ 1024 }
    ensures is { result ≡ net E.kind entries.now numbers.now }
    ensures small { Within (4294967296 * 1024) result }
{
    let mut sum = 0;
    for (entry, number) in entries.iter().zip(numbers) {
        sum += entry.side().signed(*number);
    }
    sum
}

// The fills of an interval in whole steps: rounded, and cut until they balance.
use anyhow::anyhow;
use cuts::candidates::{Lists, OrderCandidate};
use cuts::settled::{rounded_numbers, settled_numbers};
use market::records::{Book, Fills};

// One line for each entry, and one more for an entry that was cut.
fn show_entries(rt: &HostRuntime, rounded: &[u32], settled: &[u32]) -> anyhow::Result<()> {
    for (place, (before, after)) in rounded.iter().zip(settled).enumerate() {
        let entry = place.saturating_add(1);
        let cut = before.saturating_sub(*after);
        println!(rt; "Entry {entry}: {before} steps rounded, {after} settled.")?;
        if cut > 0 {
            println!(rt; "  It was cut by {cut}.")?;
        }
    }
    Ok(())
}

fn unfitting() -> anyhow::Error {
    anyhow!("the fills do not belong to the book")
}

/// Rounds and cuts the orders of interval 1, and tells what became of each.
pub(crate) fn show_cuts(
    rt: &HostRuntime,
    book: Book<'_>,
    fills: Fills<'_>,
    rounded: i32,
) -> anyhow::Result<()> {
    let heap = rt.alloc();
    let entries = book.orders.len();
    let mut before = vec![in heap; 0; entries]?;
    let mut after = vec![in heap; 0; entries]?;
    let mut ranked = vec![in heap; OrderCandidate::BLANK; entries]?;
    let mut lists = Lists {
        orders: &mut ranked,
        blocks: &mut [],
    };
    let gap = rounded_numbers(book, fills, 1, rounded, &mut before).ok_or_else(unfitting)?;
    println!(rt;
        "In steps, rounded sells less rounded buys less the rounded net position leave a gap of {gap}."
    )?;
    let remainder = settled_numbers(book, fills, 1, rounded, &mut lists, &mut after).ok_or_else(
        unfitting,
    )?;
    show_entries(rt, &before, &after)?;
    println!(rt; "The remainder is {remainder}.")?;
    Ok(())
}

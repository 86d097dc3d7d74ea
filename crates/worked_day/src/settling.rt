// Settling the interval of the worked day, and booking its remainder.
use super::accounts::{FIRMS, open_ledger, show_balances};
use cuts::candidates::{BlockCandidate, Lists, OrderCandidate};
use engine::book::Passed;
use engine::day::Day;
use engine::remainder::Returned;
use entries::Work;
use ledger::{Accounts, Ledger};
use market::records::{Book, Fills};

fn tell<L: Accounts>(rt: &HostRuntime, day: &Day, ledger: &L) -> anyhow::Result<()> {
    let open = day.open_worth();
    println!(rt; "  open worth: {open} grains")?;
    show_balances(rt, ledger)
}

// Settles interval 1 and books its remainder. A remainder that cannot be booked is noted, which is never refused: nothing has
// changed since it was handed over.
fn settle_and_book<L: Ledger>(
    rt: &HostRuntime,
    passed: &Passed,
    day: &mut Day,
    book: Book<'_>,
    fills: Fills<'_>,
    sheet: &mut [u32],
    work: &mut Work<'_>,
    ledger: &mut L,
) -> anyhow::Result<()> {
    let remainder = passed.settle(day, book, fills, sheet, work, ledger, 1)?;
    let steps = remainder.steps();
    let told = tell(rt, day, ledger);
    let refused = match day.book(ledger, remainder) {
        Ok(()) => None,
        Err(Returned { refusal, remainder }) => match day.note(remainder) {
            Ok(()) => Some(refusal),
            Err(_) => unreachable(),
        },
    };
    told?;
    match refused {
        None => println!(rt; "The remainder of {steps} steps is booked.")?,
        Some(refusal) => println!(rt;
            "The remainder of {steps} steps is noted, since booking it is refused with {refusal}."
        )?,
    }
    tell(rt, day, ledger)
}

/// Settles the interval of the worked day over fresh accounts, and shows the sheet and every account.
pub(crate) fn show_settling(
    rt: &HostRuntime,
    passed: &Passed,
    day: &mut Day,
    book: Book<'_>,
    fills: Fills<'_>,
) -> anyhow::Result<()> {
    let heap = rt.alloc();
    let entries = book.orders.len();
    let mut sheet = vec![in heap; 0; entries]?;
    let mut numbers = vec![in heap; 0; entries]?;
    let mut orders = vec![in heap; OrderCandidate::BLANK; entries]?;
    let mut blocks = vec![in heap; BlockCandidate::BLANK; entries]?;
    let lists = Lists {
        orders: &mut orders,
        blocks: &mut blocks,
    };
    let mut work = Work {
        numbers: &mut numbers,
        lists,
    };
    let mut firms = FIRMS;
    let mut ledger = open_ledger(&mut firms);
    println!(rt; "Interval 1 is settled over fresh accounts.")?;
    settle_and_book(
        rt,
        passed,
        day,
        book,
        fills,
        &mut sheet,
        &mut work,
        &mut ledger,
    )?;
    println!(rt; "The sheet holds {sheet:?} steps.")?;
    Ok(())
}

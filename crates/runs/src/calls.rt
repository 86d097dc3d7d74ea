// Carrying out calls one after the other, and noting what is out at their end.
ghost use Rattle.std.specs.Prelude.{◌≡◌, ◌≤◌, true, false, length, drop, unsigned_abs};
ghost use Rattle.market.specs.Bounds.{in_day};
ghost use Rattle.entries.specs.Settles.{SameSlices};
ghost use Rattle.engine.specs.Marks.{any_out};
ghost use Rattle.engine.specs.Steps.{paper_of, state_of};
ghost use Rattle.runs.specs.Runs.{Run};
ghost use Rattle.runs.specs.Plays.{told, out_steps, NotedAt, NotedTo};

use engine::book::Passed;
use engine::call::{Call, Outcome};
use engine::day::Day;
use engine::running::Running;
use entries::Work;
use ledger::Ledger;
use market::records::{Book, Fills, Mark};

// Carries out the calls in their order, each whatever came of those before it.
pub(crate) fn carry_out_all<L: Ledger>(
    running: &mut Running,
    memory: Book<'_>,
    fills: Fills<'_>,
    sheet: &mut [u32],
    work: &mut Work<'_>,
    ledger: &mut L,
    calls: &[Call],
    outcomes: &mut [Outcome],
)
    requires { length calls.now ≤ length outcomes.old }
    ensures run { Run (paper_of running.old.book memory.entry.orders.now fills.entry.orders.now memory.entry.blocks.now fills.entry.blocks.now) (state_of running.old.day sheet.old (L.Accounts.model ledger.old)) (told calls.now outcomes.new (length calls.now)) (state_of running.new.day sheet.new (L.Accounts.model ledger.new)) }
    ensures book { running.new.book ≡ running.old.book }
    ensures rest { drop (length calls.now) outcomes.new ≡ drop (length calls.now) outcomes.old }
    ensures keeps { L.Ledger.kept ledger.old ledger.new }
    ensures slices { SameSlices work.old work.new }
{
    for (place, call) in calls.iter().enumerate() {
        outcomes[place] = running.carry_out(memory, fills, sheet, work, ledger, *call);
    }
}

// The remainder of an interval, if it is out.
fn out_steps(day: &Day, interval: i32) -> Option<i32>
    ensures { result ≡ out_steps day.now interval }
{
    let record = day.interval(interval)?;
    if record.mark != Mark::Out {
        return None;
    }
    Some(record.remainder)
}

// Notes the remainder of an interval, if it is out.
fn note_if_out(running: &mut Running, interval: i32)
    requires { in_day running.old.day.count interval ≡ true }
    ensures noted { NotedAt running.old.day (unsigned_abs interval) running.new.day }
    ensures book { running.new.book ≡ running.old.book }
{
    if let Some(steps) = out_steps(running.day(), interval) {
        let _ = running.note(interval, steps);
    }
}

// Notes whatever is out.
fn note_rest(running: &mut Running)
    ensures noted { NotedTo running.old.day running.old.day.count running.new.day }
    ensures book { running.new.book ≡ running.old.book }
{
    let count = running.day().count();
    for place in 0..count {
        note_if_out(running, place as i32 + 1);
    }
}

/// Ends calls that were carried out by their numbers: whatever is still out is noted, so that nothing lapses.
pub fn close(running: Running) -> (Passed, Day)
    ensures book { result.0 ≡ running.book }
    ensures noted { NotedTo running.day running.day.count result.1 }
    ensures none { any_out result.1 ≡ false }
{
    let mut running = running;
    note_rest(&mut running);
    match running.finish() {
        Ok(ended) => ended,
        Err(_) => unreachable(),
    }
}

// Calls by their numbers, on a day that is kept until they end.
ghost use Rattle.std.specs.Prelude.{◌≡◌, ℕ, List};
ghost use Rattle.ledger.specs.declared.account.Account.{Account};
ghost use Rattle.entries.specs.Settles.{WorkLengths, work_lengths, SameSlices};
ghost use Rattle.engine.specs.declared.call.Call.TheVariants.{Note};
ghost use Rattle.engine.specs.Marks.{any_out};
ghost use Rattle.engine.specs.Running.{Finishes};
ghost use Rattle.engine.specs.Steps.{Paper, paper_of, state_of, Takes, handing, spending, voiding};

use super::book::Passed;
use super::call::{Call, Outcome};
use super::day::Day;
use super::refusal::Refusal;
use super::remainder::{Remainder, Returned};
use entries::Work;
use ledger::Ledger;
use market::records::{Book, Fills, Mark};

const NO_STEPS: i32 = 0;

/// A passed book and a day on which calls are carried out by their numbers. A remainder that is handed over meanwhile is in nobody's
/// hand: the day shows it out. So this cannot be let go, and it ends only when nothing is out any more.
#[must_use]
pub struct Running {
    book: Passed,
    day: Day,
}

// What came of a call that hands a remainder over.
fn handed(res: Result<Remainder, Refusal>) -> Outcome
    ensures { result ≡ handing res }
{
    match res {
        Ok(remainder) => Outcome::Accepted {
            steps: remainder.lay_down(),
        },
        Err(refusal) => Outcome::Refused(refusal),
    }
}

// What came of a call that takes a remainder of so many steps.
fn spent(steps: i32, res: Result<(), Returned>) -> Outcome
    ensures { result ≡ spending steps res }
{
    match res {
        Ok(()) => Outcome::Accepted { steps },
        Err(returned) => {
            let Returned { refusal, remainder } = returned;
            remainder.lay_down();
            Outcome::Refused(refusal)
        }
    }
}

// What came of a void.
fn voided(res: Result<(), Refusal>) -> Outcome
    ensures { result ≡ voiding res }
{
    match res {
        Ok(()) => Outcome::Accepted { steps: NO_STEPS },
        Err(refusal) => Outcome::Refused(refusal),
    }
}

impl Day {
    // Whether some interval of the day is out.
    fn has_out(&self) -> bool
        ensures { result ≡ any_out self.now }
    {
        self.intervals()
            .iter()
            .any(|record| record.mark == Mark::Out)
    }
}

impl Passed {
    /// Keeps a day, to carry out calls on it by their numbers.
    pub fn begin(self, day: Day) -> Running
        ensures { (result.book ≡ self) × (result.day ≡ day) }
    {
        Running { book: self, day }
    }
}

impl Running {
    /// The day as it is now.
    pub fn day(&self) -> &Day
        ensures { result.now ≡ self.now.day }
    {
        &self.day
    }

    /// Notes the remainder of an interval by its numbers.
    pub fn note(&mut self, interval: i32, steps: i32) -> Outcome
        ensures step { (p : Paper) (w : WorkLengths) (s : List ℕ) (m : List Account) → Takes p w (state_of self.old.day s m) (Note interval steps) result (state_of self.new.day s m) }
        ensures book { self.new.book ≡ self.old.book }
    {
        spent(steps, self.day.note(Remainder { interval, steps }))
    }

    /// Carries out a call by its numbers.
    pub fn carry_out<L: Ledger>(
        &mut self,
        memory: Book<'_>,
        fills: Fills<'_>,
        sheet: &mut [u32],
        work: &mut Work<'_>,
        ledger: &mut L,
        call: Call,
    ) -> Outcome
        ensures step { Takes (paper_of self.old.book memory.entry.orders.now fills.entry.orders.now memory.entry.blocks.now fills.entry.blocks.now) (work_lengths work.old) (state_of self.old.day sheet.old (L.Accounts.model ledger.old)) call result (state_of self.new.day sheet.new (L.Accounts.model ledger.new)) }
        ensures book { self.new.book ≡ self.old.book }
        ensures keeps { L.Ledger.kept ledger.old ledger.new }
        ensures slices { SameSlices work.old work.new }
    {
        let day = &mut self.day;
        match call {
            Call::Settle { interval } => handed(
                self.book
                    .settle(day, memory, fills, sheet, work, ledger, interval),
            ),
            Call::Book { interval, steps } => {
                spent(steps, day.book(ledger, Remainder { interval, steps }))
            }
            Call::Note { interval, steps } => {
                spent(steps, day.note(Remainder { interval, steps }))
            }
            Call::TakeUp { interval } => handed(day.take_up(interval)),
            Call::Void { interval } => {
                voided(self.book.void(day, memory, sheet, ledger, interval))
            }
        }
    }

    /// Ends the calls: the book and the day, or all back while a remainder is still out.
    pub fn finish(self) -> Result<(Passed, Day), Running>
        ensures { Finishes self result }
    {
        if self.day.has_out() {
            return Err(self);
        }
        let Running { book, day } = self;
        Ok((book, day))
    }
}

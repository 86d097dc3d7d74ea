// Noting a remainder, and taking a noted one up again.
ghost use Rattle.std.specs.Prelude.{ℕ, List};
ghost use Rattle.ledger.specs.declared.account.Account.{Account};
ghost use Rattle.entries.specs.Settles.{WorkLengths};
ghost use Rattle.engine.specs.declared.call.Call.TheVariants.{Note, TakeUp};
ghost use Rattle.engine.specs.Marks.{Hands};
ghost use Rattle.engine.specs.Steps.{Paper, state_of, Takes, spending, handing, GivesBack};

use super::day::Day;
use super::refusal::Refusal;
use super::remainder::{Remainder, Returned};
use market::records::Mark;
use market::refusal::Refusal as MarketRefusal;

impl Day {
    /// Notes a remainder: 22 where the day does not show its interval out with it, and it comes back.
    pub fn note(&mut self, remainder: Remainder) -> Result<(), Returned>
        ensures step { (p : Paper) (w : WorkLengths) (s : List ℕ) (m : List Account) → Takes p w (state_of self.old s m) (Note remainder.interval remainder.steps) (spending remainder.steps result) (state_of self.new s m) }
        ensures back { GivesBack remainder result }
    {
        if !self.shows_out(&remainder) {
            return Err(Returned {
                refusal: Refusal::NotOut,
                remainder,
            });
        }
        self.put_mark(remainder.interval, Mark::Noted);
        remainder.lay_down();
        Ok(())
    }

    /// Takes a noted remainder up: 3 for the interval, 23 where it is not noted.
    pub fn take_up(&mut self, interval: i32) -> Result<Remainder, Refusal>
        ensures step { (p : Paper) (w : WorkLengths) (s : List ℕ) (m : List Account) → Takes p w (state_of self.old s m) (TakeUp interval) (handing result) (state_of self.new s m) }
        ensures hands { Hands interval result }
    {
        let record = self.interval(interval).ok_or(MarketRefusal::NoInterval)?;
        if record.mark != Mark::Noted {
            return Err(Refusal::NotNoted);
        }
        self.put_mark(interval, Mark::Out);
        Ok(Remainder {
            interval,
            steps: record.remainder,
        })
    }
}

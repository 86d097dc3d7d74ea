// Booking a remainder, and the worth of what is still open.
ghost use Rattle.std.specs.Prelude.{◌≡◌, ℕ, ◌≤◌, true, List, unsigned_abs};
ghost use Rattle.market.specs.Bounds.{in_day};
ghost use Rattle.entries.specs.Settles.{WorkLengths};
ghost use Rattle.engine.specs.declared.call.Call.TheVariants.{Book};
ghost use Rattle.engine.specs.Booking.{MovesByBooking, booked, open_part, open_worth};
ghost use Rattle.engine.specs.Steps.{Paper, state_of, Takes, spending, GivesBack};
ghost use Rattle.engine.specs.Sound.{terms_lawful};

use super::day::Day;
use super::refusal::Refusal;
use super::remainder::{Remainder, Returned};
use ledger::{BALANCING, Ledger};
use market::records::{Interval, Mark};

impl Day {
    // What booking posts: minus the worth of the remainder. That the day has its interval is asked here, after `shows_out` found it: a
    // remainder is of no day.
    fn booked(&self, remainder: &Remainder) -> i64
        requires { in_day self.now.count remainder.now.interval ≡ true }
        ensures { result ≡ (booked self.now remainder.now.interval remainder.now.steps).amount }
    {
        let terms = self.terms_of(self.record(remainder.interval));
        terms.owed(remainder.steps)
    }

    /// Posts minus the worth of a remainder to account 1 and closes its interval: 22 where the day does not show the interval out
    /// with it, then 20 or 21 of the posting; then the remainder comes back.
    pub fn book<L: Ledger>(&mut self, ledger: &mut L, remainder: Remainder) -> Result<(), Returned>
        ensures step { (p : Paper) (w : WorkLengths) (s : List ℕ) → Takes p w (state_of self.old s (L.Accounts.model ledger.old)) (Book remainder.interval remainder.steps) (spending remainder.steps result) (state_of self.new s (L.Accounts.model ledger.new)) }
        ensures back { GivesBack remainder result }
        ensures moves { MovesByBooking self.old remainder result (L.Accounts.model ledger.old) (L.Accounts.model ledger.new) }
        ensures keeps { L.Ledger.kept ledger.old ledger.new }
    {
        if !self.shows_out(&remainder) {
            return Err(Returned {
                refusal: Refusal::NotOut,
                remainder,
            });
        }
        if let Err(refused) = ledger.post(BALANCING, self.booked(&remainder)) {
            return Err(Returned {
                refusal: refused.into(),
                remainder,
            });
        }
        self.put_mark(remainder.interval, Mark::Closed);
        remainder.lay_down();
        Ok(())
    }

    // The worth of a record's remainder while it is out or noted. A record is plain, so that its terms are lawful stays a clause.
    fn open_part(&self, record: Interval) -> i64
        requires { terms_lawful «record» ≡ true }
        ensures is { result ≡ open_part self.now.minutes «record» }
        ensures small { unsigned_abs result ≤ 6871947673600000 }
    {
        match record.mark {
            Mark::Out | Mark::Noted => self.terms_of(record).worth(record.remainder),
            Mark::Unsettled | Mark::Closed => 0,
        }
    }

    /// The worths of the remainders of all intervals that are out or noted, added up.
    pub fn open_worth(&self) -> i64
        ensures { result ≡ open_worth self.now }
    {
        let mut sum = 0;
        // A loop, since a `sum()` of signed numbers has no bound that a proof knows.
        for record in self.intervals() {
            sum += self.open_part(*record);
        }
        sum
    }
}

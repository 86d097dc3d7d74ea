// The amounts of an interval, in grains.
ghost use Rattle.std.specs.Prelude.{◌≡◌, ◌≤◌, IfSome, neg_ℤ, unsigned_abs};
ghost use Rattle.market.specs.Signed.{Within};
ghost use Rattle.entries.specs.Amounts.{conditions, worth, posting_of, exchange, booking, opposite};

use super::book::Party;
use super::terms::Terms;
use ledger::{BALANCING, EXCHANGE};
use posting::Posting;

const NO_STEPS: u32 = 0;

impl Terms {
    /// The amount of steps in grains: price × steps × quarters.
    pub fn worth(self, steps: i32) -> i64
        ensures is { result ≡ worth (conditions self) steps }
        ensures small { unsigned_abs result ≤ 6871947673600000 }
    {
        self.amount(i64::from(steps))
    }

    /// What is taken where the amount of steps is given: minus it.
    pub fn owed(self, steps: i32) -> i64
        ensures { result ≡ neg_ℤ (worth (conditions self) steps) }
    {
        -self.worth(steps)
    }

    fn amount(self, steps: i64) -> i64
        requires { Within 4294967296 steps }
        ensures is { result ≡ worth (conditions self) steps }
        ensures small { unsigned_abs result ≤ 6871947673600000 }
    {
        i64::from(self.price) * steps * i64::from(self.quarters)
    }
}

/// The posting of an entry: none for 0 steps.
pub(crate) fn posting_of(terms: Terms, party: Party, steps: u32) -> Option<Posting>
    ensures is { result ≡ posting_of (conditions terms) party steps }
    ensures small { IfSome result (λ p. unsigned_abs p.amount ≤ 6871947673600000) }
{
    (steps != NO_STEPS).then(|| Posting {
        account: party.account,
        amount: terms.amount(party.side.signed(steps)),
    })
}

/// Minus R's amount, for the exchange.
pub(crate) fn exchange(terms: Terms) -> Posting
    ensures is { result ≡ exchange (conditions terms) }
    ensures small { unsigned_abs result.amount ≤ 6871947673600000 }
{
    Posting {
        account: EXCHANGE,
        amount: terms.owed(terms.rounded),
    }
}

/// The worth of a remainder, for the balancing account: what takes its booking back.
pub(crate) fn unbooking(terms: Terms, remainder: i32) -> Posting
    ensures { result ≡ opposite (booking (conditions terms) remainder) }
{
    Posting {
        account: BALANCING,
        amount: terms.worth(remainder),
    }
}

/// The posting that takes another back.
pub(crate) fn taken_back(posting: Posting) -> Posting
    requires { unsigned_abs posting.amount ≤ 6871947673600000 }
    ensures { result ≡ opposite posting }
{
    Posting {
        amount: -posting.amount,
        ..posting
    }
}

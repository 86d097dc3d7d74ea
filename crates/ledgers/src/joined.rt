// Two ledgers joined at a number.
ghost use Rattle.std.specs.Prelude.{◌≡◌, length, nat_lt, refl};
ghost use Rattle.std.proofs.Common.{◌∙◌};
ghost use Rattle.ledger.specs.Model.{number_at};
ghost use Rattle.ledgers.specs.Join.{below, from_on, join, is_below};
ghost use Rattle.ledgers.specs.Lawfuls.{join-lawful};

use ledger::{Accounts, Ledger, PostRefused};

/// Two ledgers as one: the accounts below the border are those of the first, the others those of the second.
/// Accounts on the wrong side of the border are no accounts of the joined ledger.
#[derive(Drop)]
pub struct Joined<A, B> {
    pub first: A,
    pub second: B,
    pub border: u32,
}

impl<A, B> Joined<A, B> {
    /// Whether an account is one of the first ledger's.
    fn is_first(&self, account: u32) -> bool
        ensures { result ≡ nat_lt account self.now.border }
    {
        account < self.border
    }
}

/// Whether there is an account at a place, from 1, and it is below a number.
fn lies_below<L: Accounts>(accounts: &L, place: usize, border: u32) -> bool
    ensures { result ≡ is_below border (number_at (L.Accounts.model accounts.now) place) }
{
    accounts
        .account_at(place)
        .is_some_and(|number| number < border)
}

/// How many accounts are below a number: they ascend, so halving finds it.
fn count_below<L: Accounts>(accounts: &L, border: u32) -> usize
    ensures { result ≡ length (below border (L.Accounts.model accounts.now)) }
{
    // By hand: the accounts are read by their places, so there is no slice that `partition_point` could halve.
    let mut low = 0;
    let mut high = accounts.count();
    while low < high {
        let middle = low + (high - low) / 2;
        if lies_below(accounts, middle + 1, border) {
            low = middle + 1;
        } else {
            high = middle;
        }
    }
    low
}

impl<A: Accounts, B: Accounts> Accounts for Joined<A, B> {
    ghost model = { λ j. join j.border (A.Accounts.model j.first) (B.Accounts.model j.second) };

    ghost lawful = { λ j. join-lawful j.border (A.Accounts.model j.first) (B.Accounts.model j.second) (A.Accounts.lawful j.first) (B.Accounts.lawful j.second) };

    fn count(&self) -> usize {
        let low = count_below(&self.first, self.border);
        let skipped = count_below(&self.second, self.border);
        low + (self.second.count() - skipped)
    }

    fn account_at(&self, place: usize) -> Option<u32> {
        let low = count_below(&self.first, self.border);
        if place <= low {
            return self.first.account_at(place);
        }
        let skipped = count_below(&self.second, self.border);
        let later = (place - low).checked_add(skipped)?;
        self.second.account_at(later)
    }

    fn balance(&self, account: u32) -> Option<i64> {
        if self.is_first(account) {
            self.first.balance(account)
        } else {
            self.second.balance(account)
        }
    }
}

impl<A: Ledger, B: Ledger> Ledger for Joined<A, B> {
    // Both have kept their memory, and the accounts on the wrong side of the border are as they were.
    ghost kept = { λ i j. (i.border ≡ j.border) × (A.Ledger.kept i.first j.first) × (B.Ledger.kept i.second j.second) × (from_on i.border (A.Accounts.model i.first) ≡ from_on j.border (A.Accounts.model j.first)) × (below i.border (B.Accounts.model i.second) ≡ below j.border (B.Accounts.model j.second)) };

    ghost unmoved = { λ j. (refl, A.Ledger.unmoved j.first, B.Ledger.unmoved j.second, refl, refl) };

    ghost onward = { λ i j k p q. (p.0 ∙ q.0, A.Ledger.onward i.first j.first k.first p.1 q.1, B.Ledger.onward i.second j.second k.second p.2 q.2, p.3 ∙ q.3, p.4 ∙ q.4) };

    fn post(&mut self, account: u32, amount: i64) -> Result<(), PostRefused> {
        if self.is_first(account) {
            self.first.post(account, amount)
        } else {
            self.second.post(account, amount)
        }
    }
}

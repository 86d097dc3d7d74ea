// The sum of all balances, of any ledger.
ghost use Rattle.std.specs.Prelude.{◌≡◌, ◌<◌, length, slice_index_or};
ghost use Rattle.ledger.specs.Model.{total, blank};

use super::Accounts;

/// The sum of all balances. It fits for every ledger, since numbers of accounts and balances are bounded.
pub fn sum_of_balances<L: Accounts>(ledger: &L) -> i128
    ensures { result ≡ total (L.Accounts.model ledger.now) }
{
    // A loop over places, since they are all that a ledger shows, and no `sum()`: of signed numbers that one needs a bound on every partial
    // sum, which a chain has no place for.
    let mut sum: i128 = 0;
    for place in 0..ledger.count() {
        sum += i128::from(balance_at(ledger, place));
    }
    sum
}

/// The balance of the account at a place, from 0.
fn balance_at<L: Accounts>(ledger: &L, place: usize) -> i64
    requires { place < length (L.Accounts.model ledger.now) }
    ensures { result ≡ (slice_index_or (L.Accounts.model ledger.now) place blank).balance }
{
    let account = ledger.account_at(place + 1).unwrap();
    ledger.balance(account).unwrap()
}

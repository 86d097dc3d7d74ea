// What a ledger is: its reading side, and posting built upon it.
#![tactic(auto)]

ghost use Rattle.std.specs.Prelude.{◌≡◌, List, length};
ghost use Rattle.ledger.specs.declared.account.Account.{Account};
ghost use Rattle.ledger.specs.Model.{Lawful, number_at, balance_of, answer, after};

mod account;
mod laws;
mod lent;
mod refusal;
mod sum;

pub use account::{Account, BALANCING, EXCHANGE, LIMIT};
pub use laws::laws_stand;
pub use refusal::PostRefused;
pub use sum::sum_of_balances;

/// The reading side of a ledger. Reading changes nothing.
pub trait Accounts {
    // The open accounts, in ascending order of number.
    ghost model: { Self → List Account };

    // Numbers ascend strictly, bounds are lawful, balances are between them.
    ghost lawful: { (l : Self) → Lawful (model l) };

    /// How many accounts are open.
    fn count(&self) -> usize
        ensures { result ≡ length (model self.now) };

    /// The number of the account at a place, from 1, ascending.
    fn account_at(&self, place: usize) -> Option<u32>
        ensures { result ≡ number_at (model self.now) place };

    /// The balance of an account, if it is open.
    fn balance(&self, account: u32) -> Option<i64>
        ensures { result ≡ balance_of (model self.now) account };
}

/// A ledger that can be posted to.
pub trait Ledger: Accounts {
    // What of the ledger's memory is not in the model is in the second as in the first.
    ghost kept: { Self → Self → Type 0 };

    ghost unmoved: { (l : Self) → kept l l };

    ghost onward: { (l m n : Self) → kept l m → kept m n → kept l n };

    /// Adds an amount, of either sign, to the balance of one account, and changes nothing else.
    /// Refused, it changes nothing.
    fn post(&mut self, account: u32, amount: i64) -> Result<(), PostRefused>
        ensures answers { result ≡ answer (Self.Accounts.model self.old) account amount }
        ensures posts { Self.Accounts.model self.new ≡ after (Self.Accounts.model self.old) account amount }
        ensures keeps { kept self.old self.new };
}

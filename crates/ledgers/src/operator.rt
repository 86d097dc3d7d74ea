// The operator's ledger: account 0, the exchange, and account 1, for balancing.
ghost use Rattle.std.specs.Prelude.{◌≡◌, pos};
ghost use Rattle.ledgers.specs.Operator.{operators, InLimit, widened};
ghost use Rattle.ledgers.specs.Lawfuls.{operators-lawful};

use ledger::{Account, Accounts, BALANCING, EXCHANGE, LIMIT, Ledger, PostRefused};

const ACCOUNTS: usize = 2;

/// The operator's two accounts, with the widest bounds.
#[derive(Drop)]
pub struct Operator {
    exchange: i64,
    balancing: i64,
    ghost bounded: { InLimit exchange × InLimit balancing },
}

impl Operator {
    /// Both accounts with balance 0.
    pub fn new() -> Operator
        ensures { operators result.exchange result.balancing ≡ operators (pos 0) (pos 0) }
    {
        Operator {
            exchange: 0,
            balancing: 0,
        }
    }
}

impl Accounts for Operator {
    ghost model = { λ l. operators l.exchange l.balancing };

    ghost lawful = { λ l. operators-lawful l.exchange l.balancing l.bounded.0 l.bounded.1 };

    fn count(&self) -> usize {
        ACCOUNTS
    }

    fn account_at(&self, place: usize) -> Option<u32> {
        match place {
            1 => Some(EXCHANGE),
            2 => Some(BALANCING),
            _ => None,
        }
    }

    fn balance(&self, account: u32) -> Option<i64> {
        match account {
            EXCHANGE => Some(self.exchange),
            BALANCING => Some(self.balancing),
            _ => None,
        }
    }
}

/// The new balance of an account with the widest bounds.
fn moved(account: u32, balance: i64, amount: i64) -> Result<i64, PostRefused>
    ensures { result ≡ widened account balance amount }
{
    let held = Account {
        number: account,
        balance,
        lower: -LIMIT,
        upper: LIMIT,
    };
    held.raised(amount)
        .ok_or(PostRefused::OutOfBounds { account })
}

impl Ledger for Operator {
    // All of its memory is in the model.
    ghost kept = { λ l m. Unit {0} };

    ghost unmoved = { λ l. tt };

    ghost onward = { λ l m n p q. tt };

    fn post(&mut self, account: u32, amount: i64) -> Result<(), PostRefused> {
        match account {
            EXCHANGE => self.exchange = moved(account, self.exchange, amount)?,
            BALANCING => self.balancing = moved(account, self.balancing, amount)?,
            _ => return Err(PostRefused::NotOpen { account }),
        }
        Ok(())
    }
}

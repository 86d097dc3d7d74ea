// An account record, as a caller's memory holds it and as a ledger's model lists it.
ghost use Rattle.std.specs.Prelude.{◌≡◌};
ghost use Rattle.ledger.specs.Model.{raised};

/// The widest bounds of a balance, either way, in grains.
pub const LIMIT: i64 = 10_000_000_000_000_000;

/// The account of the exchange.
pub const EXCHANGE: u32 = 0;

/// The account for balancing.
pub const BALANCING: u32 = 1;

/// An account: its number, its balance and the bounds of its balance, in grains.
#[derive(Clone, Copy, PartialEq, Eq, Debug)]
pub struct Account {
    pub number: u32,
    pub balance: i64,
    pub lower: i64,
    pub upper: i64,
}

impl Account {
    /// The balance with an amount added, if it is within the bounds; any amount is allowed.
    pub fn raised(self, amount: i64) -> Option<i64>
        ensures { result ≡ raised self amount }
    {
        let bounds = self.lower..=self.upper;
        let balance = self.balance.checked_add(amount)?;
        bounds.contains(&balance).then_some(balance)
    }
}

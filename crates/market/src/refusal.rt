// Why a call refuses, and where, in numbers and in plain words.
ghost use Rattle.std.specs.Prelude.{◌≡◌};
ghost use Rattle.market.specs.Refusals.{number_of, place_of};

use std::fmt;
use thiserror::Error;

// The entry in the text of a refusal. There is no entry 0, and nothing is said of it.
#[derive(Drop)]
struct At<'a>(&'a u32);

impl fmt::Display for At<'_> {
    fn fmt<W: fmt::Write>(&self, f: &mut fmt::Formatter<W>) -> fmt::Result {
        let entry = *self.0;
        if entry == 0 {
            return Ok(());
        }
        write!(f, " at entry {entry}")
    }
}

/// The refusals of the book and of its verdict. An entry is an order's or a block's number: orders count from 1, and blocks
/// carry on after the last order.
#[derive(Clone, Copy, PartialEq, Eq, Debug, Error)]
pub enum Refusal {
    #[error("{}: an interval lasts 15, 30 or 60 minutes", self.number())]
    Minutes,
    #[error("{}: a day has 1 to 100 intervals", self.number())]
    Count,
    #[error("{}: the day does not have that interval", self.number())]
    NoInterval,
    #[error("{}: a price is from -50000 to 400000 cents per MWh", self.number())]
    Price,
    #[error("{}: the net position is out of range, or its rounding is a step or more away", self.number())]
    NetPosition,
    #[error("{}: there is no room for another entry", self.number())]
    Full,
    #[error("{}: a quantity is from 1 to 10000 steps", self.number())]
    Quantity,
    #[error("{}: an account is from 2 to 65535", self.number())]
    Account,
    #[error("{}: a least percentage is from 1 to 100", self.number())]
    Percentage,
    #[error("{}: a memory is too short, or there is not one fill for each entry", self.number())]
    Short,
    #[error("{}{}: the record is outside the bounds of entry", self.number(), At(.entry))]
    OutsideBounds { entry: u32 },
    #[error("{}{}: the fill exceeds the quantity", self.number(), At(.entry))]
    OverQuantity { entry: u32 },
    #[error("{}{}: the limit is worse than the price, so nothing of it may be filled", self.number(), At(.entry))]
    ShouldBeEmpty { entry: u32 },
    #[error("{}{}: the limit is better than the price, so all of it must be filled", self.number(), At(.entry))]
    ShouldBeFull { entry: u32 },
    #[error("{}{}: the block is filled below its least percentage", self.number(), At(.entry))]
    BelowLeast { entry: u32 },
    #[error("{}{}: the prices of its intervals do not reach the block's limit", self.number(), At(.entry))]
    BlockPrice { entry: u32 },
    #[error("{} at interval {interval}: sales less purchases are not the net position", self.number())]
    Unbalanced { interval: u32 },
}

impl Refusal {
    /// The number by which a refusal is known.
    pub fn number(self) -> u32
        ensures { result ≡ number_of self }
    {
        match self {
            Refusal::Minutes => 1,
            Refusal::Count => 2,
            Refusal::NoInterval => 3,
            Refusal::Price => 4,
            Refusal::NetPosition => 5,
            Refusal::Full => 6,
            Refusal::Quantity => 7,
            Refusal::Account => 8,
            Refusal::Percentage => 10,
            Refusal::Short => 11,
            Refusal::OutsideBounds { .. } => 12,
            Refusal::OverQuantity { .. } => 13,
            Refusal::ShouldBeEmpty { .. } => 14,
            Refusal::ShouldBeFull { .. } => 15,
            Refusal::BelowLeast { .. } => 16,
            Refusal::BlockPrice { .. } => 17,
            Refusal::Unbalanced { .. } => 18,
        }
    }

    /// The entry or the interval that a refusal speaks of, or 0.
    pub fn place(self) -> u32
        ensures { result ≡ place_of self }
    {
        match self {
            Refusal::OutsideBounds { entry }
            | Refusal::OverQuantity { entry }
            | Refusal::ShouldBeEmpty { entry }
            | Refusal::ShouldBeFull { entry }
            | Refusal::BelowLeast { entry }
            | Refusal::BlockPrice { entry } => entry,
            Refusal::Unbalanced { interval } => interval,
            _ => 0,
        }
    }
}

// Why a settling call refuses, and where, in numbers and in plain words.
ghost use Rattle.std.specs.Prelude.{◌≡◌};
ghost use Rattle.engine.specs.Refusals.{number_of, place_of};

use ledger::PostRefused;
use thiserror::Error;

/// The refusals of the settling calls, and what comes from below.
#[derive(Clone, Copy, PartialEq, Eq, Debug, Error)]
pub enum Refusal {
    /// The interval, a memory, a record or a fill.
    #[error("{0}")]
    Market(market::refusal::Refusal),
    /// The first posting that is refused.
    #[error("{0}")]
    Posting(PostRefused),
    #[error("{}: the interval is not unsettled", self.number())]
    NotUnsettled,
    #[error("{}: the day does not show the interval out with that remainder", self.number())]
    NotOut,
    #[error("{}: the interval is not noted", self.number())]
    NotNoted,
    #[error("{}: the interval is not closed", self.number())]
    NotClosed,
}

impl Refusal {
    /// The number by which a refusal is known.
    pub fn number(self) -> u32
        ensures { result ≡ number_of self }
    {
        match self {
            Refusal::Market(refusal) => refusal.number(),
            Refusal::Posting(refused) => refused.number(),
            Refusal::NotUnsettled => 19,
            Refusal::NotOut => 22,
            Refusal::NotNoted => 23,
            Refusal::NotClosed => 24,
        }
    }

    /// The entry, the interval or the account that a refusal speaks of, or 0.
    pub fn place(self) -> u32
        ensures { result ≡ place_of self }
    {
        match self {
            Refusal::Market(refusal) => refusal.place(),
            Refusal::Posting(refused) => refused.place(),
            Refusal::NotUnsettled | Refusal::NotOut | Refusal::NotNoted | Refusal::NotClosed => 0,
        }
    }
}

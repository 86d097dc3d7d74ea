// Why an interval is not settled.
use ledger::PostRefused;
use market::refusal::Refusal;

/// Why an interval is not settled.
#[derive(Clone, Copy, PartialEq, Eq, Debug)]
pub enum SettleRefused {
    /// The interval, a memory, a record or a fill.
    Market(Refusal),
    /// The first posting that is refused.
    Posting(PostRefused),
}

// By hand: the `From` that thiserror writes has no contract, and the clauses name the refusal.
impl From<Refusal> for SettleRefused {
    ghost use Rattle.std.specs.Prelude.{◌≡◌};
    ghost use Rattle.entries.specs.declared.refused.SettleRefused.TheVariants.{Market};

    ghost from_gives = { λ refusal e. e ≡ Market refusal };

    fn from(refusal: Refusal) -> SettleRefused {
        SettleRefused::Market(refusal)
    }
}

impl From<PostRefused> for SettleRefused {
    ghost use Rattle.std.specs.Prelude.{◌≡◌};
    ghost use Rattle.entries.specs.declared.refused.SettleRefused.TheVariants.{Posting};

    ghost from_gives = { λ refused e. e ≡ Posting refused };

    fn from(refused: PostRefused) -> SettleRefused {
        SettleRefused::Posting(refused)
    }
}

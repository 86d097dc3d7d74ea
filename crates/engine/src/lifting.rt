// A refusal from below as one of a settling call: what `?` makes of it. By hand, since the `From` that thiserror writes has no contract.
ghost use Rattle.std.specs.Prelude.{◌≡◌};
ghost use Rattle.engine.specs.declared.refusal.Refusal.TheVariants.{Market, Posting};
ghost use Rattle.engine.specs.Settling.{lifted_by};

use super::refusal::Refusal;
use entries::SettleRefused;
use ledger::PostRefused;
use market::refusal::Refusal as MarketRefusal;

impl From<MarketRefusal> for Refusal {
    ghost from_gives = { λ e refusal. refusal ≡ Market e };

    fn from(refused: MarketRefusal) -> Refusal {
        Refusal::Market(refused)
    }
}

impl From<PostRefused> for Refusal {
    ghost from_gives = { λ e refusal. refusal ≡ Posting e };

    fn from(refused: PostRefused) -> Refusal {
        Refusal::Posting(refused)
    }
}

impl From<SettleRefused> for Refusal {
    ghost from_gives = { λ e refusal. refusal ≡ lifted_by e };

    fn from(refused: SettleRefused) -> Refusal {
        match refused {
            SettleRefused::Market(refusal) => Refusal::Market(refusal),
            SettleRefused::Posting(refused) => Refusal::Posting(refused),
        }
    }
}

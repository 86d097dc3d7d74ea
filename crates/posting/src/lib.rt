// Postings in order, all or none, over any ledger.
#![tactic(auto)]

ghost use Rattle.std.specs.Prelude.{◌≡◌, ℕ, ◌<◌, IfSome, OnErr};
ghost use Rattle.posting.specs.Postings.{one, listed, answers, left, undone, Small};
ghost use Rattle.posting.specs.Laws.{Summed};

mod laws;
mod posting;
mod source;

pub use laws::laws_stand;
use ledger::{Ledger, PostRefused};
pub use posting::Posting;
pub use source::{Listed, Source};

/// Posts in order. At the first refusal the earlier postings are taken back, last first.
pub fn post_all<L: Ledger, S: Source>(ledger: &mut L, source: &S) -> Result<(), PostRefused>
    ensures answers { result ≡ answers (L.Accounts.model ledger.old) (listed (S.Source.slot source.now) (S.Source.many source.now)) }
    ensures posts { L.Accounts.model ledger.new ≡ left (L.Accounts.model ledger.old) (listed (S.Source.slot source.now) (S.Source.many source.now)) }
    ensures keeps { L.Ledger.kept ledger.old ledger.new }
    ensures unmoved { OnErr result (L.Accounts.model ledger.new ≡ L.Accounts.model ledger.old) }
    ensures sums { Summed result (listed (S.Source.slot source.now) (S.Source.many source.now)) (L.Accounts.model ledger.old) (L.Accounts.model ledger.new) }
{
    for place in 0..source.places() {
        if let Err(refused) = post_at(ledger, source, place) {
            take_back(ledger, source, place);
            return Err(refused);
        }
    }
    Ok(())
}

/// Posts a list in order, all or none.
pub fn post_list<L: Ledger>(ledger: &mut L, postings: &[Posting]) -> Result<(), PostRefused>
    ensures answers { result ≡ answers (L.Accounts.model ledger.old) postings.now }
    ensures posts { L.Accounts.model ledger.new ≡ left (L.Accounts.model ledger.old) postings.now }
    ensures keeps { L.Ledger.kept ledger.old ledger.new }
    ensures unmoved { OnErr result (L.Accounts.model ledger.new ≡ L.Accounts.model ledger.old) }
    ensures sums { Summed result postings.now (L.Accounts.model ledger.old) (L.Accounts.model ledger.new) }
{
    post_all(ledger, &Listed { postings })
}

/// Posts what stands at a place.
fn post_at<L: Ledger, S: Source>(
    ledger: &mut L,
    source: &S,
    place: usize,
) -> Result<(), PostRefused>
    ensures answers { result ≡ answers (L.Accounts.model ledger.old) (one (S.Source.slot source.now place)) }
    ensures posts { L.Accounts.model ledger.new ≡ left (L.Accounts.model ledger.old) (one (S.Source.slot source.now place)) }
    ensures keeps { L.Ledger.kept ledger.old ledger.new }
{
    match source.at(place) {
        None => Ok(()),
        Some(posting) => ledger.post(posting.account, posting.amount),
    }
}

/// Takes back what stands at the first places, last first.
fn take_back<L: Ledger, S: Source>(ledger: &mut L, source: &S, places: usize)
    requires { (k : ℕ) → k < places → IfSome (S.Source.slot source.now k) Small }
    ensures posts { L.Accounts.model ledger.new ≡ undone (L.Accounts.model ledger.old) (S.Source.slot source.now) places }
    ensures keeps { L.Ledger.kept ledger.old ledger.new }
{
    for place in (0..places).rev() {
        if let Some(posting) = source.at(place) {
            let _ = ledger.post(posting.account, -posting.amount);
        }
    }
}

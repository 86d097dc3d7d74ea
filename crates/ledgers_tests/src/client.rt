// A client: the operator's accounts below 2, its own account records above.
ghost use Rattle.std.specs.Prelude.{◌≡◌, pos, OnErr};
ghost use Rattle.posting.specs.Postings.{answers, left};
ghost use Rattle.ledgers.specs.Join.{join};
ghost use Rattle.ledgers.specs.Operator.{operators};
ghost use Rattle.ledgers.specs.Table.{table_model};

use ledger::{Account, Ledger, PostRefused};
use ledgers::{Joined, Operator, Table};
use posting::{Posting, post_list};

/// Posts to two ledgers that are lent, joined at 2, all or none.
pub fn pay_both<A: Ledger, B: Ledger>(
    first: &mut A,
    second: &mut B,
    postings: &[Posting],
) -> Result<(), PostRefused>
    ensures answers { result ≡ answers (join 2 (A.Accounts.model first.old) (B.Accounts.model second.old)) postings.now }
    ensures posts { join 2 (A.Accounts.model first.new) (B.Accounts.model second.new) ≡ left (join 2 (A.Accounts.model first.old) (B.Accounts.model second.old)) postings.now }
    ensures keeps { A.Ledger.kept first.old first.new × B.Ledger.kept second.old second.new }
    ensures unmoved { OnErr result ((A.Accounts.model first.new ≡ A.Accounts.model first.old) × (B.Accounts.model second.new ≡ B.Accounts.model second.old)) }
{
    let mut books = Joined {
        first,
        second,
        border: 2,
    };
    post_list(&mut books, postings)
}

/// Posts to the operator's accounts and the caller's records. Refused, the records are as they were.
pub fn pay(records: &mut [Account], postings: &[Posting]) -> Result<(), PostRefused>
    ensures answers { result ≡ answers (join 2 (operators (pos 0) (pos 0)) (table_model records.old)) postings.now }
    ensures unmoved { OnErr result (records.new ≡ records.old) }
{
    let mut operator = Operator::new();
    let mut table = Table { records };
    pay_both(&mut operator, &mut table, postings)
}

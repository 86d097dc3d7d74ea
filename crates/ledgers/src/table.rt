// The table ledger, over the caller's account records.
ghost use Rattle.std.specs.Prelude.{◌≡◌, ◌≤◌, length, MatchOption, refl};
ghost use Rattle.std.proofs.Common.{◌∙◌};
ghost use Rattle.ledgers.specs.Table.{Absent, FirstAt, lawful_from, table_model, open_records, TableKept, checked};
ghost use Rattle.ledgers.specs.Lawfuls.{table_lawful};
ghost use Rattle.ledgers.specs.Laws.{Says};
ghost use Rattle.ledger.specs.Model.{Lawful, answer, after};

use super::refusal::TableRefused;
use ledger::{Account, Accounts, LIMIT, Ledger, PostRefused};

const MOST: usize = 500;

/// A ledger over account records. Its accounts are the longest leading run within the first 500 records
/// with strictly ascending numbers, lawful bounds and balances between them. The other records lie idle.
#[derive(Drop)]
pub struct Table<'a> {
    pub records: &'a mut [Account],
}

impl Table<'_> {
    /// Refused at the first record that is no account of the table.
    pub fn check(&self) -> Result<(), TableRefused>
        ensures exact { result ≡ checked self.now.records.now }
        ensures says { Says self.now.records.now result }
    {
        check_run(self.records)
    }
}

/// Refused at the first record outside the run.
fn check_run(records: &[Account]) -> Result<(), TableRefused>
    ensures { result ≡ checked records.now }
{
    let open = open_count(records);
    if open == records.len() {
        Ok(())
    } else {
        Err(TableRefused::OutsideRun {
            record: open as u32 + 1,
        })
    }
}

/// Whether a record can follow those with numbers below `least`.
fn is_lawful(least: u64, account: Account) -> bool
    ensures { result ≡ lawful_from least account }
{
    least <= u64::from(account.number)
        && (-LIMIT..=account.balance).contains(&account.lower)
        && (account.balance..=LIMIT).contains(&account.upper)
}

/// How many records are accounts.
fn open_count(records: &[Account]) -> usize
    ensures counts { result ≡ open_records records.now }
    ensures inside { result ≤ length records.now }
    ensures few { result ≤ 500 }
{
    let few = &records[..records.len().min(MOST)];
    // Not a `take_while`: what a record has to exceed changes with each.
    let mut least = 0;
    for (open, account) in few.iter().enumerate() {
        if !is_lawful(least, *account) {
            return open;
        }
        least = u64::from(account.number) + 1;
    }
    few.len()
}

/// The records that are accounts.
fn open_part(records: &[Account]) -> &[Account]
    ensures model { result.now ≡ table_model records.now }
    ensures lawful { Lawful result.now }
{
    &records[..open_count(records)]
}

/// The place of the account with a number, from 0.
fn place_of(accounts: &[Account], number: u32) -> Option<usize>
    requires { Lawful accounts.now }
    ensures { MatchOption result (Absent accounts.now number) (λ i. FirstAt accounts.now number i) }
{
    accounts
        .binary_search_by_key(&number, |account| account.number)
        .ok()
}

/// Adds an amount to the balance of one account.
fn post_to(records: &mut [Account], account: u32, amount: i64) -> Result<(), PostRefused>
    ensures answers { result ≡ answer (table_model records.old) account amount }
    ensures posts { table_model records.new ≡ after (table_model records.old) account amount }
    ensures keeps { TableKept records.old records.new }
{
    let place = place_of(open_part(records), account).ok_or(PostRefused::NotOpen { account })?;
    let balance = records[place]
        .raised(amount)
        .ok_or(PostRefused::OutOfBounds { account })?;
    records[place].balance = balance;
    Ok(())
}

impl<'a> Accounts for Table<'a> {
    ghost model = { λ t. table_model t.records.now };

    ghost lawful = { λ t. table_lawful t.records.now };

    fn count(&self) -> usize {
        open_part(self.records).len()
    }

    fn account_at(&self, place: usize) -> Option<u32> {
        let accounts = open_part(self.records);
        let account = accounts.get(place.checked_sub(1)?)?;
        Some(account.number)
    }

    fn balance(&self, account: u32) -> Option<i64> {
        let accounts = open_part(self.records);
        let place = place_of(accounts, account)?;
        Some(accounts[place].balance)
    }
}

impl<'a> Ledger for Table<'a> {
    // The records are the same memory, and those that are no accounts are as they were.
    ghost kept = { λ t u. (t.records.ghost_name ≡ u.records.ghost_name) × TableKept t.records.now u.records.now };

    ghost unmoved = { λ t. (refl, (refl, refl)) };

    ghost onward = { λ t u v p q. (p.0 ∙ q.0, (p.1.0 ∙ q.1.0, p.1.1 ∙ q.1.1)) };

    fn post(&mut self, account: u32, amount: i64) -> Result<(), PostRefused> {
        post_to(self.records, account, amount)
    }
}

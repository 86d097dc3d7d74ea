// Accounts to post to: the operator's below 2, and those of the firms in a table.
use ledger::{Account, Accounts, Ledger, sum_of_balances};
use ledgers::{Joined, Operator, Table};

// The number from which on the accounts are those of the firms.
const BORDER: u32 = 2;

// The accounts of the firms, at the start.
pub(crate) const FIRMS: [Account; 3] = [
    Account {
        number: 11,
        balance: 0,
        lower: 0,
        upper: 1_000_000,
    },
    Account {
        number: 12,
        balance: 0,
        lower: 0,
        upper: 200_000,
    },
    Account {
        number: 13,
        balance: 0,
        lower: -1_000_000,
        upper: 0,
    },
];

pub(crate) fn show_balances<L: Accounts>(rt: &HostRuntime, ledger: &L) -> anyhow::Result<()> {
    // Any ledger shows its accounts by their places alone: there is no list to go over.
    for place in 1..=ledger.count() {
        if let Some(account) = ledger.account_at(place) {
            let balance = ledger.balance(account).unwrap_or(0);
            println!(rt; "  account {account}: {balance} grains")?;
        }
    }
    let sum = sum_of_balances(ledger);
    println!(rt; "  all together: {sum} grains")?;
    Ok(())
}

fn post<L: Ledger>(
    rt: &HostRuntime,
    ledger: &mut L,
    account: u32,
    amount: i64,
) -> anyhow::Result<()> {
    match ledger.post(account, amount) {
        Ok(()) => println!(rt; "{amount} grains are posted to account {account}.")?,
        Err(refused) => {
            let number = refused.number();
            let place = refused.place();
            println!(rt;
                "{amount} grains to account {account} are refused with {number} at account {place}."
            )?;
        }
    }
    show_balances(rt, ledger)
}

/// The operator's accounts without a balance, and those of firms.
pub(crate) fn open_ledger(firms: &mut [Account]) -> Joined<Operator, Table<'_>> {
    Joined {
        first: Operator::new(),
        second: Table { records: firms },
        border: BORDER,
    }
}

/// Opens the accounts of the day, and makes two postings of which the second exceeds an account's bound.
pub(crate) fn show_accounts(rt: &HostRuntime) -> anyhow::Result<()> {
    let mut firms = FIRMS;
    let mut ledger = open_ledger(&mut firms);
    post(rt, &mut ledger, 12, 115_000)?;
    post(rt, &mut ledger, 12, 115_000)
}

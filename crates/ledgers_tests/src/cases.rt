// Cases of the check, of posting, of joined ledgers and of posting all or none.
use super::client::{pay, pay_both};
use ledger::{Account, Accounts, LIMIT, Ledger, PostRefused, sum_of_balances};
use ledgers::{Joined, Operator, Table};
use posting::Posting;
use std::test::Fail;

/// Accepted, or the number and the place of a refusal.
type Answer = Result<(), (u32, u32)>;

const ACCEPTED: Answer = Ok(());

fn account(number: u32, balance: i64, lower: i64, upper: i64) -> Account {
    Account {
        number,
        balance,
        lower,
        upper,
    }
}

/// An account with balance 0 and bounds of 10 either way.
fn small(number: u32) -> Account {
    account(number, 0, -10, 10)
}

// A refusal of the check and one of a posting are two types, and no trait joins them for their two methods.
/// What the check answers.
fn checked(records: &mut [Account]) -> Answer {
    let answer = (Table { records }).check();
    answer.map_err(|refused| (refused.number(), refused.place()))
}

/// What a posting answers.
fn told(answer: Result<(), PostRefused>) -> Answer {
    answer.map_err(|refused| (refused.number(), refused.place()))
}

/// Records with the numbers from 0 on.
fn many() -> [Account; 501] {
    let mut records = [small(0); 501];
    for (record, number) in records.iter_mut().zip(0..) {
        record.number = number;
    }
    records
}

#[test]
fn run_ends_at_each_fault(rt: HostRuntime) {
    assert_eq!(rt; checked(&mut [small(7); 0]), ACCEPTED);
    assert_eq!(rt; checked(&mut [small(7), small(9)]), ACCEPTED);
    assert_eq!(rt; checked(&mut [small(7), small(7)]), Err((9, 2)));
    assert_eq!(rt; checked(&mut [small(7), small(9), small(8)]), Err((9, 3)));
    assert_eq!(rt; checked(&mut [account(7, 0, 1, 10)]), Err((9, 1)));
    assert_eq!(rt; checked(&mut [account(7, 0, -10, -1)]), Err((9, 1)));
    assert_eq!(rt; checked(&mut [account(7, 0, -LIMIT - 1, 0)]), Err((9, 1)));
    assert_eq!(rt; checked(&mut [account(7, 0, 0, LIMIT + 1)]), Err((9, 1)));
    assert_eq!(rt;
        checked(&mut [account(7, 0, -LIMIT, LIMIT), account(8, -10, -10, -10)]),
        ACCEPTED
    );
}

/// The check of 500 lawful records.
fn first_500() -> Answer {
    let mut records = many();
    checked(&mut records[0..500])
}

/// The check of 501 records, the third with the number given.
fn all_501(third: u32) -> Answer {
    let mut records = many();
    records[2].number = third;
    checked(&mut records)
}

#[test]
fn run_ends_after_500(rt: HostRuntime) {
    assert_eq!(rt; first_500(), ACCEPTED);
    assert_eq!(rt; all_501(2), Err((9, 501)));
    assert_eq!(rt; all_501(1), Err((9, 3)));
}

/// Posts, and answers the refusal and the balance then.
fn posted<L: Ledger>(ledger: &mut L, account: u32, amount: i64) -> (Answer, Option<i64>) {
    let answer = told(ledger.post(account, amount));
    (answer, ledger.balance(account))
}

#[test]
fn table_posts_to_its_bounds(rt: HostRuntime) {
    let mut records = [small(7), account(9, 3, 0, 5), small(9)];
    let mut table = Table {
        records: &mut records,
    };
    assert_eq!(rt; posted(&mut table, 7, 10), (ACCEPTED, Some(10)));
    assert_eq!(rt; posted(&mut table, 7, 1), (Err((21, 7)), Some(10)));
    assert_eq!(rt; posted(&mut table, 7, -20), (ACCEPTED, Some(-10)));
    assert_eq!(rt; posted(&mut table, 7, -1), (Err((21, 7)), Some(-10)));
    assert_eq!(rt; posted(&mut table, 9, i64::MAX), (Err((21, 9)), Some(3)));
    assert_eq!(rt; posted(&mut table, 9, i64::MIN), (Err((21, 9)), Some(3)));
    assert_eq!(rt; posted(&mut table, 8, i64::MIN), (Err((20, 8)), None));
    assert_eq!(rt; table.count(), 2);
    assert_eq!(rt; sum_of_balances(&table), -7);
}

#[test]
fn operator_posts_to_its_bounds(rt: HostRuntime) {
    let mut operator = Operator::new();
    assert_eq!(rt; posted(&mut operator, 0, LIMIT), (ACCEPTED, Some(LIMIT)));
    assert_eq!(rt; posted(&mut operator, 0, 1), (Err((21, 0)), Some(LIMIT)));
    assert_eq!(rt; posted(&mut operator, 1, -LIMIT), (ACCEPTED, Some(-LIMIT)));
    assert_eq!(rt; posted(&mut operator, 1, -1), (Err((21, 1)), Some(-LIMIT)));
    assert_eq!(rt;
        posted(&mut operator, 0, i64::MAX),
        (Err((21, 0)), Some(LIMIT))
    );
    assert_eq!(rt;
        posted(&mut operator, 1, i64::MIN),
        (Err((21, 1)), Some(-LIMIT))
    );
    assert_eq!(rt; posted(&mut operator, 2, 0), (Err((20, 2)), None));
    assert_eq!(rt; sum_of_balances(&operator), 0);
}

/// The numbers at the places 0 to 6.
fn listed<L: Accounts>(ledger: &L) -> [Option<u32>; 7] {
    std::array::from_fn(|place| ledger.account_at(place))
}

/// Two tables joined at a border, each with accounts on either side of it.
fn joined_at(border: u32) -> (usize, [Option<u32>; 7]) {
    let mut low = [small(1), small(4), small(7)];
    let mut high = [small(2), small(5), small(8)];
    let joined = Joined {
        first: Table { records: &mut low },
        second: Table { records: &mut high },
        border,
    };
    (joined.count(), listed(&joined))
}

#[test]
fn joined_follows_the_border(rt: HostRuntime) {
    let second = (3, [None, Some(2), Some(5), Some(8), None, None, None]);
    let between = (4, [None, Some(1), Some(4), Some(5), Some(8), None, None]);
    let first = (3, [None, Some(1), Some(4), Some(7), None, None, None]);
    assert_eq!(rt; joined_at(0), second);
    assert_eq!(rt; joined_at(5), between);
    assert_eq!(rt; joined_at(9), first);
    assert_eq!(rt; joined_at(u32::MAX), first);
}

#[test]
fn joined_posts_by_the_border(rt: HostRuntime) {
    let mut low = [small(1), small(5)];
    let mut high = [small(4), small(5)];
    let mut joined = Joined {
        first: Table { records: &mut low },
        second: Table { records: &mut high },
        border: 5,
    };
    assert_eq!(rt; posted(&mut joined, 1, 1), (ACCEPTED, Some(1)));
    assert_eq!(rt; posted(&mut joined, 5, 2), (ACCEPTED, Some(2)));
    assert_eq!(rt; posted(&mut joined, 4, 4), (Err((20, 4)), None));
    assert_eq!(rt; posted(&mut joined, 5, 9), (Err((21, 5)), Some(2)));
    assert_eq!(rt; sum_of_balances(&joined), 3);
    assert_eq!(rt; low[1].balance, 0);
    assert_eq!(rt; high[1].balance, 2);
}

#[test]
fn joined_over_joined(rt: HostRuntime) {
    let mut low = [small(2), small(5)];
    let mut high = [small(6), small(9)];
    let members = Joined {
        first: Table { records: &mut low },
        second: Table { records: &mut high },
        border: 6,
    };
    let mut all = Joined {
        first: Operator::new(),
        second: members,
        border: 2,
    };
    assert_eq!(rt;
        (all.count(), listed(&all)),
        (
            6,
            [None, Some(0), Some(1), Some(2), Some(5), Some(6), Some(9)],
        )
    );
    assert_eq!(rt; posted(&mut all, 0, -7), (ACCEPTED, Some(-7)));
    assert_eq!(rt; posted(&mut all, 5, 3), (ACCEPTED, Some(3)));
    assert_eq!(rt; posted(&mut all, 9, 4), (ACCEPTED, Some(4)));
    assert_eq!(rt; posted(&mut all, 9, 7), (Err((21, 9)), Some(4)));
    assert_eq!(rt; sum_of_balances(&all), 0);
}

/// What a payment leaves: its answer, the operator's two balances, and the records.
type Left = (Answer, [Option<i64>; 2], [Account; 3]);

/// Pays from fixed records.
fn paid(postings: &[Posting]) -> Left {
    let mut records = [small(2), small(3), small(5)];
    let mut operator = Operator::new();
    let mut table = Table {
        records: &mut records,
    };
    let answer = told(pay_both(&mut operator, &mut table, postings));
    (answer, [operator.balance(0), operator.balance(1)], records)
}

/// A refusal that leaves all as it was.
fn refused(number: u32, account: u32) -> Left {
    (
        Err((number, account)),
        [Some(0), Some(0)],
        [small(2), small(3), small(5)],
    )
}

fn of(account: u32, amount: i64) -> Posting {
    Posting { account, amount }
}

#[test]
fn all_are_posted(rt: HostRuntime) {
    let records = [account(2, 7, -10, 10), small(3), account(5, -6, -10, 10)];
    assert_eq!(rt;
        paid(&[of(2, 1); 0]),
        (ACCEPTED, [Some(0), Some(0)], [small(2), small(3), small(5)])
    );
    assert_eq!(rt;
        paid(&[of(2, 10), of(0, -4), of(5, -6), of(2, -3)]),
        (ACCEPTED, [Some(-4), Some(0)], records)
    );
}

#[test]
fn refused_none_are_posted(rt: HostRuntime) {
    assert_eq!(rt; paid(&[of(4, 1), of(2, 1), of(3, 1)]), refused(20, 4));
    assert_eq!(rt; paid(&[of(2, 10), of(2, 1), of(3, 1)]), refused(21, 2));
    assert_eq!(rt;
        paid(&[of(1, 5), of(2, 10), of(2, -20), of(2, 20), of(3, i64::MIN)]),
        refused(21, 3)
    );
    assert_eq!(rt;
        paid(&[of(0, 9), of(1, -LIMIT), of(1, -1), of(9, 1)]),
        refused(21, 1)
    );
}

/// Whether a refusal prints a text.
fn prints(rt: &HostRuntime, refused: PostRefused, text: &str) -> Result<bool, Fail> {
    Ok(format!(in rt.alloc(); "{refused}")?.as_str() == text)
}

#[test]
fn refusals_print_number_account_and_reason(rt: HostRuntime) -> Result<(), Fail> {
    let closed = "20 at account 4: the account is not open";
    let beyond = "21 at account 4294967295: the balance would be out of bounds";
    assert!(rt; prints(&rt, PostRefused::NotOpen { account: 4 }, closed)?);
    assert!(rt; prints(&rt, PostRefused::OutOfBounds { account: u32::MAX }, beyond)?);
    Ok(())
}

#[test]
fn client_pays_from_its_records(rt: HostRuntime) {
    let mut records = [small(2), small(3)];
    assert_eq!(rt; told(pay(&mut records, &[of(2, 4), of(0, -4)])), ACCEPTED);
    assert_eq!(rt;
        told(pay(&mut records, &[of(3, 4), of(2, 7)])),
        Err((21, 2))
    );
    assert_eq!(rt; records, [account(2, 4, -10, 10), small(3)]);
}

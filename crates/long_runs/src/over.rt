// The kinds of ledger that the runs are played on.
use crate::dice::Dice;
use crate::run::play_day;
use crate::tally::Tally;
use ledger::Account;
use ledgers::{Joined, Operator, Table};
use std::alloc::{AllocError, Global};
use std::fmt;

// The first of the firms' accounts, and one past their last.
const FIRST_FIRM: u32 = 2;

const END: u32 = 10;

// The border between two tables, somewhere among the firms.
const MIDDLE: u32 = 6;

const WIDE: i64 = 1_000_000_000;

const NARROW: u32 = 60_000;

/// A kind of ledger.
#[derive(Clone, Copy, PartialEq, Eq, Debug)]
pub(crate) enum Kind {
    Operator,
    Table,
    LentTable,
    OperatorAndTable,
    TwoTables,
}

impl fmt::Display for Kind {
    fn fmt<W: fmt::Write>(&self, f: &mut fmt::Formatter<W>) -> fmt::Result {
        f.write_str(match self {
            Kind::Operator => "The operator's accounts alone",
            Kind::Table => "A table",
            Kind::LentTable => "A lent table",
            Kind::OperatorAndTable => "The operator's accounts joined with a table",
            Kind::TwoTables => "Two tables joined",
        })
    }
}

// The accounts from one number to before another. Some are narrow, so that they refuse postings, and some are left out.
fn draw_accounts(
    alloc: Global,
    dice: &mut Dice,
    first: u32,
    end: u32,
) -> Result<Vec<Account>, AllocError> {
    let mut accounts = Vec::new(alloc);
    for number in first..end {
        let bound = if dice.one_in(8) {
            i64::from(dice.below(NARROW))
        } else {
            WIDE
        };
        if !dice.one_in(40) {
            accounts.push(Account {
                number,
                balance: 0,
                lower: -bound,
                upper: bound,
            })?;
        }
    }
    Ok(accounts)
}

fn play_operator(
    rt: &impl Print,
    alloc: Global,
    dice: &mut Dice,
    tally: &mut Tally,
) -> anyhow::Result<()> {
    let mut operator = Operator::new();
    play_day(rt, alloc, dice, &mut operator, tally)
}

fn play_table(
    rt: &impl Print,
    alloc: Global,
    dice: &mut Dice,
    tally: &mut Tally,
) -> anyhow::Result<()> {
    let mut records = draw_accounts(alloc, dice, 0, END)?;
    let mut table = Table {
        records: &mut records,
    };
    play_day(rt, alloc, dice, &mut table, tally)
}

fn play_lent_table(
    rt: &impl Print,
    alloc: Global,
    dice: &mut Dice,
    tally: &mut Tally,
) -> anyhow::Result<()> {
    let mut records = draw_accounts(alloc, dice, 0, END)?;
    let mut table = Table {
        records: &mut records,
    };
    let mut lent = &mut table;
    play_day(rt, alloc, dice, &mut lent, tally)
}

fn play_operator_and_table(
    rt: &impl Print,
    alloc: Global,
    dice: &mut Dice,
    tally: &mut Tally,
) -> anyhow::Result<()> {
    let mut records = draw_accounts(alloc, dice, FIRST_FIRM, END)?;
    let mut joined = Joined {
        first: Operator::new(),
        second: Table {
            records: &mut records,
        },
        border: FIRST_FIRM,
    };
    play_day(rt, alloc, dice, &mut joined, tally)
}

// Each table has all accounts: those on the wrong side of the border are no accounts of the joined ledger.
fn play_two_tables(
    rt: &impl Print,
    alloc: Global,
    dice: &mut Dice,
    tally: &mut Tally,
) -> anyhow::Result<()> {
    let mut lower = draw_accounts(alloc, dice, 0, END)?;
    let mut upper = draw_accounts(alloc, dice, 0, END)?;
    let mut joined = Joined {
        first: Table {
            records: &mut lower,
        },
        second: Table {
            records: &mut upper,
        },
        border: MIDDLE,
    };
    play_day(rt, alloc, dice, &mut joined, tally)
}

impl Kind {
    /// Plays one run on a fresh ledger of this kind.
    pub(crate) fn play(
        self,
        rt: &impl Print,
        alloc: Global,
        dice: &mut Dice,
        tally: &mut Tally,
    ) -> anyhow::Result<()> {
        match self {
            Kind::Operator => play_operator(rt, alloc, dice, tally),
            Kind::Table => play_table(rt, alloc, dice, tally),
            Kind::LentTable => play_lent_table(rt, alloc, dice, tally),
            Kind::OperatorAndTable => play_operator_and_table(rt, alloc, dice, tally),
            Kind::TwoTables => play_two_tables(rt, alloc, dice, tally),
        }
    }
}

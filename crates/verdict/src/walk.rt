// The walks over records: the first refusal, and a sum. Each is written once, for every kind of record and every rule.
ghost use Rattle.std.specs.Prelude.{◌≡◌, ℕ, ◌+◌, ◌*◌, ◌≤◌, length, ℤ, Result};
ghost use Rattle.market.specs.declared.refusal.Refusal.{Refusal};
ghost use Rattle.verdict.specs.Walks.{first_in, first_filled};
ghost use Rattle.market.specs.Signed.{Within};
ghost use Rattle.verdict.specs.Sums.{sum_filled};
ghost use Rattle.std.specs.List.{AllZip};

use market::refusal::Refusal;

// A trait for what a walk asks, and no closure: its ghost members say what may be asked and what is answered, so that the clause of a walk
// is one equation over them.

/// A look at one record by its number: the entry of an order or a block, or the number of an interval.
pub(crate) trait Check<T> {
    ghost answer: { Self → T → ℕ → Result Unit Refusal };

    fn check(&self, x: &T, number: u32) -> Result<(), Refusal>
        ensures { result ≡ answer self.now x.now number };
}

// How many entries there are stays a clause of each walk: the three go over slices of their own, records, or entries with fills.

/// What the first record answers that is refused.
pub(crate) fn first_refused<T, C: Check<T>>(
    check: &C,
    records: &[T],
    first: u32,
) -> Result<(), Refusal>
    requires few { length records.now ≤ 1024 }
    requires from { first ≤ 1025 }
    ensures { result ≡ first_in (C.Check.answer check.now) records.now first }
{
    // The number is counted from the index: a range without an end beside the records would need that none of its numbers overflows.
    for (i, x) in records.iter().enumerate() {
        check.check(x, first + i as u32)?;
    }
    Ok(())
}

/// A rule on one entry and its fill.
pub(crate) trait Rule<T> {
    ghost may: { Self → T → ℕ → Type 0 };

    ghost answer: { Self → T → ℕ → ℕ → Result Unit Refusal };

    fn judge(&self, x: &T, fill: u32, entry: u32) -> Result<(), Refusal>
        requires { may self.now x.now fill }
        ensures { result ≡ answer self.now x.now fill «entry» };
}

// Not `first_refused` over pairs: entries and fills are lent as two slices, and a slice of pairs would need a heap.
/// What the first entry answers that breaks the rule.
pub(crate) fn first_broken<T, R: Rule<T>>(
    rule: &R,
    entries: &[T],
    fills: &[u32],
    first: u32,
) -> Result<(), Refusal>
    requires few { length entries.now ≤ 1024 }
    requires from { first ≤ 1025 }
    requires may { AllZip (R.Rule.may rule.now) entries.now fills.now }
    ensures { result ≡ first_filled (R.Rule.answer rule.now) entries.now fills.now first }
{
    for (i, (x, fill)) in entries.iter().zip(fills).enumerate() {
        rule.judge(x, *fill, first + i as u32)?;
    }
    Ok(())
}

/// An amount that one entry and its fill come to.
pub(crate) trait Amount<T> {
    ghost may: { Self → T → ℕ → Type 0 };

    ghost gives: { Self → T → ℕ → ℤ };

    fn amount(&self, x: &T, fill: u32) -> i64
        requires { may self.now x.now fill }
        ensures is { result ≡ gives self.now x.now fill }
        ensures small { Within 40000000000000 result };
}

/// What the entries come to.
pub(crate) fn sum_of<T, M: Amount<T>>(amounts: &M, entries: &[T], fills: &[u32]) -> i64
    requires few { length entries.now ≤ 1024 }
    requires may { AllZip (M.Amount.may amounts.now) entries.now fills.now }
    ensures is { result ≡ sum_filled (M.Amount.gives amounts.now) entries.now fills.now }
    ensures small { Within (40000000000000 * 1024) result }
{
    let mut sum = 0;
    // A loop, since a `sum()` of signed numbers has no bound that a proof knows.
    for (x, fill) in entries.iter().zip(fills) {
        sum += amounts.amount(x, *fill);
    }
    sum
}

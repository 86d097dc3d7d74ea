// The welfare of a paper: what its fills are worth at their limits.
ghost use Rattle.std.specs.Prelude.{◌≡◌, ℕ, ◌≤◌, pos, ◌*ℤ◌};
ghost use Rattle.verdict.specs.Balance.{worth, order_worth, block_worth};
ghost use Rattle.market.specs.Signed.{Within};
ghost use Rattle.verdict.specs.Worths.{Mild, Spans};

use super::rules::span;
use super::walk::Amount;
use market::records::{Block, Order, Side};

// Not `Side::signed`, which promises that its answer is small because a count is; and with a sell's minus it is the other way round.
// That limit and fill are mild stays a clause here and below: it speaks of an entry and its fill together.
fn worth(side: Side, limit: i32, fill: u32) -> i64
    requires { Mild limit fill }
    ensures is { result ≡ worth side limit fill }
    ensures small { Within 400000000000 result }
{
    let value = i64::from(limit) * i64::from(fill);
    match side {
        Side::Sell => -value,
        Side::Buy => value,
    }
}

fn block_worth(block: &Block, fill: u32) -> i64
    requires { Mild block.now.limit fill × Spans block.now }
    ensures is { result ≡ block_worth block.now fill }
    ensures small { Within 40000000000000 result }
{
    worth(block.side, block.limit, fill) * span(block)
}

/// What an entry adds to the welfare.
#[derive(Drop)]
pub(crate) struct Worths;

// A block's worth counts once for each of its intervals, and an order has no such factor: the two are plainer apart.
impl Amount<Order> for Worths {
    ghost may = { λ _ o f. Mild o.limit f };

    ghost gives = { λ _ o f. order_worth o f };

    fn amount(&self, x: &Order, fill: u32) -> i64 {
        worth(x.side, x.limit, fill)
    }
}

impl Amount<Block> for Worths {
    ghost may = { λ _ b f. Mild b.limit f × Spans b };

    ghost gives = { λ _ b f. block_worth b f };

    fn amount(&self, x: &Block, fill: u32) -> i64 {
        block_worth(x, fill)
    }
}

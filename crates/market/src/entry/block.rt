// A block as an entry.
ghost use Rattle.std.specs.Prelude.{◌≡◌};
ghost use Rattle.market.specs.Bounds.{share_table};
ghost use Rattle.market.specs.First.{tests};
ghost use Rattle.market.specs.Kinds.{blocks};

use super::Entry;
use crate::bounds::{is_account, is_percentage, is_price, is_quantity, is_span};
use crate::records::{Block, Side};
use crate::refusal::Refusal;

// The bodies that read a field stand here and for orders alike: one body would need the fields in a record that both hold, and callers
// fill the records as they are. The bounds differ in their tests, and a body for both would ask an order for a percentage.
impl Entry for Block {
    ghost kind = { blocks };

    fn side(&self) -> Side {
        self.side
    }

    fn covers(&self, interval: u32) -> bool {
        (i64::from(self.first)..=i64::from(self.last)).contains(&i64::from(interval))
    }

    fn quantity(&self) -> i32 {
        self.quantity
    }

    fn limit(&self) -> i32 {
        self.limit
    }

    fn stamp(&self) -> i32 {
        self.stamp
    }

    fn account(&self) -> i32 {
        self.account
    }

    /// 3 for the intervals, 4 for the limit, 7 for the quantity, 10 for the least percentage, 8 for the account.
    fn check_bounds(&self, intervals: usize) -> Result<(), Refusal> {
        if !is_span(intervals, self.first, self.last) {
            return Err(Refusal::NoInterval);
        }
        if !is_price(self.limit) {
            return Err(Refusal::Price);
        }
        if !is_quantity(self.quantity) {
            return Err(Refusal::Quantity);
        }
        check_share(self)
    }
}

// 10 for the least percentage, 8 for the account.
fn check_share(block: &Block) -> Result<(), Refusal>
    ensures { result ≡ tests (share_table block.now) }
{
    if !is_percentage(block.least) {
        return Err(Refusal::Percentage);
    }
    if !is_account(block.account) {
        return Err(Refusal::Account);
    }
    Ok(())
}

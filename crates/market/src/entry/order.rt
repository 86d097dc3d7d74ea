// An order as an entry.
ghost use Rattle.market.specs.Kinds.{orders};

use super::Entry;
use crate::bounds::{is_account, is_in_day, is_price, is_quantity};
use crate::records::{Order, Side};
use crate::refusal::Refusal;

impl Entry for Order {
    ghost kind = { orders };

    fn side(&self) -> Side {
        self.side
    }

    fn covers(&self, interval: u32) -> bool {
        i64::from(self.interval) == i64::from(interval)
    }

    fn quantity(&self) -> i32 {
        self.quantity
    }

    fn limit(&self) -> i32 {
        self.limit
    }

    fn stamp(&self) -> i32 {
        self.stamp
    }

    fn account(&self) -> i32 {
        self.account
    }

    /// 3 for the interval, 4 for the limit, 7 for the quantity, 8 for the account.
    fn check_bounds(&self, intervals: usize) -> Result<(), Refusal> {
        if !is_in_day(intervals, i64::from(self.interval)) {
            return Err(Refusal::NoInterval);
        }
        if !is_price(self.limit) {
            return Err(Refusal::Price);
        }
        if !is_quantity(self.quantity) {
            return Err(Refusal::Quantity);
        }
        if !is_account(self.account) {
            return Err(Refusal::Account);
        }
        Ok(())
    }
}

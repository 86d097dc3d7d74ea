// What orders and blocks have in common: the rules and the cuts are written once for both.
ghost use Rattle.std.specs.Prelude.{◌≡◌};
ghost use Rattle.market.specs.Kinds.{Kind};

use super::records::Side;
use super::refusal::Refusal;

mod block;
mod order;

/// An entry of a book: an order or a block.
pub trait Entry {
    ghost kind: { Kind Self };

    fn side(&self) -> Side
        ensures { result ≡ kind.side self.now };

    /// Whether the entry is of an interval.
    fn covers(&self, interval: u32) -> bool
        ensures { result ≡ kind.covers self.now interval };

    /// Its quantity in steps.
    fn quantity(&self) -> i32
        ensures { result ≡ kind.quantity self.now };

    /// Its limit in cents per MWh.
    fn limit(&self) -> i32
        ensures { result ≡ kind.limit self.now };

    /// When it was entered, in seconds.
    fn stamp(&self) -> i32
        ensures { result ≡ kind.stamp self.now };

    fn account(&self) -> i32
        ensures { result ≡ kind.account self.now };

    /// The bounds of entry in a day of so many intervals.
    fn check_bounds(&self, intervals: usize) -> Result<(), Refusal>
        ensures { result ≡ kind.bounds intervals self.now };
}

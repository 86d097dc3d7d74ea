// An interval of a book.
ghost use Rattle.std.specs.Prelude.{◌≡◌, ◌+◌, ◌≤◌, length};

use super::terms::Terms;
use market::records::Book;

/// What an interval is settled and voided by: the book, the interval in a day of so many, and its terms.
#[derive(Clone, Copy)]
pub(crate) struct Delivery<'a> {
    pub book: Book<'a>,
    pub intervals: usize,
    pub interval: u32,
    pub terms: Terms,
}

impl Delivery<'_> {
    /// How many entries the book has.
    pub(crate) fn entries(self) -> usize
        requires { length self.book.orders.now + length self.book.blocks.now ≤ 1088 }
        ensures { result ≡ length self.entry.book.orders.now + length self.entry.book.blocks.now }
    {
        self.book.orders.len() + self.book.blocks.len()
    }
}

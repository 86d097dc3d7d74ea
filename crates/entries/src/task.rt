// What is settled.
use super::delivery::Delivery;
use market::records::Fills;

/// What is settled: an interval of a book, with the fills of the book.
#[derive(Clone, Copy)]
pub(crate) struct Task<'a> {
    pub delivery: Delivery<'a>,
    pub fills: Fills<'a>,
}

// What is voided.
use super::delivery::Delivery;

/// What is voided: an interval of a book, with the remainder that was booked.
#[derive(Clone, Copy)]
pub(crate) struct Undo<'a> {
    pub delivery: Delivery<'a>,
    pub remainder: i32,
}

// The entries of a book, by their places: the orders, then the blocks.
ghost use Rattle.std.specs.Prelude.{◌≡◌, ◌+◌, ◌<◌, length};
ghost use Rattle.entries.specs.Amounts.{party, party_at};
ghost use Rattle.entries.specs.Sheet.{of_interval};
ghost use Rattle.entries.specs.Voids.{quantity_at};

use market::entry::Entry;
use market::records::{Book, Side};

// That the book has the place stays a clause of what reads by it: it speaks of book and place together. Each of them looks among the orders
// and then the blocks: a closure for what it asks would have two types, an order's and a block's.

/// Whose steps they are.
#[derive(Clone, Copy)]
pub(crate) struct Party {
    pub side: Side,
    pub account: u32,
}

fn party_of<E: Entry>(entry: &E) -> Party
    ensures { result ≡ party E.kind entry.now }
{
    Party {
        side: entry.side(),
        account: entry.account().unsigned_abs(),
    }
}

/// Whether the entry at a place, from 0, is of an interval.
pub(crate) fn is_of(book: Book<'_>, place: usize, interval: u32) -> bool
    requires { place < length book.orders.now + length book.blocks.now }
    ensures { result ≡ of_interval book.entry.orders.now book.entry.blocks.now interval place }
{
    match book.orders.get(place) {
        Some(order) => order.covers(interval),
        None => book.blocks[place - book.orders.len()].covers(interval),
    }
}

/// The quantity in steps of the entry at a place, from 0.
pub(crate) fn quantity_at(book: Book<'_>, place: usize) -> i32
    requires { place < length book.orders.now + length book.blocks.now }
    ensures { result ≡ quantity_at book.entry.orders.now book.entry.blocks.now place }
{
    match book.orders.get(place) {
        Some(order) => order.quantity(),
        None => book.blocks[place - book.orders.len()].quantity(),
    }
}

/// The side and the account of the entry at a place, from 0.
pub(crate) fn party_at(book: Book<'_>, place: usize) -> Party
    requires { place < length book.orders.now + length book.blocks.now }
    ensures { result ≡ party_at book.entry.orders.now book.entry.blocks.now place }
{
    match book.orders.get(place) {
        Some(order) => party_of(order),
        None => party_of(&book.blocks[place - book.orders.len()]),
    }
}

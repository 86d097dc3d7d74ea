// The postings of an interval, read by place.
ghost use Rattle.std.specs.Prelude.{◌≡◌, suc, ◌+◌, ◌-◌, ◌≤◌, IfSome, length, unsigned_abs};
ghost use Rattle.std.specs.Option.{option_map};
ghost use Rattle.entries.specs.Amounts.{conditions, settle_slot, booking, opposite, void_slot};
ghost use Rattle.entries.specs.Voids.{reversal_of, Voidable, settled_slot};

use super::amounts::{exchange, posting_of, taken_back, unbooking};
use super::book::party_at;
use super::delivery::Delivery;
use super::undo::Undo;
use posting::{Posting, Source};

/// The postings of settling: by entry, and last minus R's amount to account 0.
#[derive(Drop)]
pub(crate) struct Settling<'a, 'b> {
    pub delivery: Delivery<'a>,
    pub numbers: &'b [u32],
    ghost few: { length delivery.book.orders.now + length delivery.book.blocks.now ≤ 1088 },
    ghost each: { length numbers.now ≡ length delivery.book.orders.now + length delivery.book.blocks.now },
}

impl<'a, 'b> Source for Settling<'a, 'b> {
    ghost many = { λ s. suc (length s.delivery.book.orders.now + length s.delivery.book.blocks.now) };

    ghost slot = { λ s k. settle_slot s.delivery.book.orders.now s.delivery.book.blocks.now s.numbers.now (conditions s.delivery.terms) k };

    fn places(&self) -> usize {
        self.numbers.len() + 1
    }

    fn at(&self, place: usize) -> Option<Posting> {
        match self.numbers.get(place) {
            Some(steps) => posting_of(
                self.delivery.terms,
                party_at(self.delivery.book, place),
                *steps,
            ),
            None => Some(exchange(self.delivery.terms)),
        }
    }
}

/// The postings of voiding by the numbers in the sheet: the opposite of booking the remainder, then of settling, last first.
#[derive(Drop)]
pub(crate) struct Voiding<'a, 'b> {
    pub undo: Undo<'a>,
    pub sheet: &'b [u32],
    ghost voidable: { Voidable (reversal_of undo) (length sheet.now) },
}

impl Voiding<'_, '_> {
    // What settling posted at a place, from 0: by entry, and past the entries for the exchange.
    fn settled_at(&self, place: usize) -> Option<Posting>
        ensures is { result ≡ settled_slot (reversal_of self.now.undo) self.now.sheet.now place }
        ensures small { IfSome result (λ p. unsigned_abs p.amount ≤ 6871947673600000) }
    {
        let delivery = self.undo.delivery;
        if place < delivery.entries() {
            let number = delivery.number_at(self.sheet, place);
            posting_of(delivery.terms, party_at(delivery.book, place), number)
        } else {
            Some(exchange(delivery.terms))
        }
    }
}

impl<'a, 'b> Source for Voiding<'a, 'b> {
    ghost many = { λ v. suc (suc (length v.undo.delivery.book.orders.now + length v.undo.delivery.book.blocks.now)) };

    ghost slot = { λ v k. void_slot (settled_slot (reversal_of v.undo) v.sheet.now) (suc (length v.undo.delivery.book.orders.now + length v.undo.delivery.book.blocks.now)) (booking (conditions v.undo.delivery.terms) v.undo.remainder) k };

    fn places(&self) -> usize {
        self.undo.delivery.entries() + 2
    }

    fn at(&self, place: usize) -> Option<Posting> {
        if place == 0 {
            return Some(unbooking(self.undo.delivery.terms, self.undo.remainder));
        }
        let settled = (self.undo.delivery.entries() + 1).saturating_sub(place);
        self.settled_at(settled).map(taken_back)
    }
}

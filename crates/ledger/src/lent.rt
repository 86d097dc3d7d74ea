// A ledger that is lent is a ledger: a joined ledger can then stand over two that are lent to it.
ghost use Rattle.std.specs.Prelude.{◌≡◌, refl};
ghost use Rattle.std.proofs.Common.{◌∙◌};

use super::{Accounts, Ledger, PostRefused};

impl<'a, L: Accounts> Accounts for &'a mut L {
    ghost model = { λ l. L.Accounts.model l.now };

    ghost lawful = { λ l. L.Accounts.lawful l.now };

    fn count(&self) -> usize {
        (**self).count()
    }

    fn account_at(&self, place: usize) -> Option<u32> {
        (**self).account_at(place)
    }

    fn balance(&self, account: u32) -> Option<i64> {
        (**self).balance(account)
    }
}

impl<'a, L: Ledger> Ledger for &'a mut L {
    // The loan is of the same ledger, and that has kept its memory.
    ghost kept = { λ l m. (l.ghost_name ≡ m.ghost_name) × L.Ledger.kept l.now m.now };

    ghost unmoved = { λ l. (refl, L.Ledger.unmoved l.now) };

    ghost onward = { λ l m n p q. (p.0 ∙ q.0, L.Ledger.onward l.now m.now n.now p.1 q.1) };

    fn post(&mut self, account: u32, amount: i64) -> Result<(), PostRefused> {
        (**self).post(account, amount)
    }
}

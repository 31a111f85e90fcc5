// Lent stores.
ghost use Rattle.std.specs.Prelude.{◌≡◌};

use crate::stores::Store;

// A store that is only lent, so that its owner has it back afterwards.
#[derive(Clone, Copy)]
pub struct Lent<'a, S> {
    store: &'a S,
}

impl<'a, S: Store> Lent<'a, S> {
    pub fn new(store: &'a S) -> Self
        ensures { result.store.now ≡ store.now }
    {
        Lent { store }
    }
}

impl<'a, S: Store> Store for Lent<'a, S> {
    ghost rules = { λ l. S.Store.rules l.store.now };

    ghost fit = { λ l. S.Store.fit l.store.now };

    // A store that stands for another hands each question on; so do the makes to their tables.
    fn count(&self) -> u16 {
        self.store.count()
    }

    fn size(&self, rule: u16) -> Option<u16> {
        self.store.size(rule)
    }

    fn byte(&self, rule: u16, at: u16) -> Option<u8> {
        self.store.byte(rule, at)
    }
}

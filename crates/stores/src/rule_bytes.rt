// The bytes of a rule of any store, one by one.
ghost use Rattle.std.specs.Prelude.{◌≡◌};
ghost use Rattle.std.specs.Iterator.{YieldsFirst, item_count};
ghost use Rattle.stores.specs.Answers.{bytes_of, bytes_from};

use crate::stores::Store;

// The bytes of a rule that are left; none where there is no such rule.
#[derive(Drop)]
pub struct RuleBytes<'a, S> {
    store: &'a S,
    rule: u16,
    at: u16,
}

impl<'a, S: Store> RuleBytes<'a, S> {
    // All bytes of a rule.
    pub fn new(store: &'a S, rule: u16) -> Self
        ensures { bytes_from (S.Store.rules result.store.now) result.rule result.at ≡ bytes_of (S.Store.rules store.now) rule }
    {
        RuleBytes { store, rule, at: 0 }
    }
}

impl<'a, S: Store> Iterator for RuleBytes<'a, S> {
    type Item = u8;

    ghost next_gives = { YieldsFirst (λ b. bytes_from (S.Store.rules b.store.now) b.rule b.at) };

    ghost remaining = { item_count (λ b. bytes_from (S.Store.rules b.store.now) b.rule b.at) };

    fn next(&mut self) -> Option<u8> {
        let byte = self.store.byte(self.rule, self.at)?;
        self.at += 1;
        Some(byte)
    }
}

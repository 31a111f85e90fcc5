// Stores that can show a rule's bytes.
ghost use Rattle.std.specs.Prelude.{◌≡◌, ℕ, true, List};
ghost use Rattle.std.specs.Option.{option_map};
ghost use Rattle.grammar.specs.Texts.{all_fit};
ghost use Rattle.stores.specs.Answers.{count_of, text_of};

use crate::stores::Store;

// A list of rules, each of whose bytes stand one after the other. It is a store.
pub trait Texts {
    ghost rules: { Self → List (List ℕ) };

    ghost fit: { (s : Self) → all_fit (rules s) ≡ true };

    // How many rules there are, or 65,535 if there are more.
    fn count(&self) -> u16
        ensures { result ≡ count_of (rules self.now) };

    // The bytes of a rule.
    fn text(&self, rule: u16) -> Option<&[u8]>
        ensures { option_map (λ x. x.now) result ≡ text_of (rules self.now) rule };
}

impl<T: Texts> Store for T {
    ghost rules = { T.Texts.rules };

    ghost fit = { T.Texts.fit };

    fn count(&self) -> u16 {
        Texts::count(self)
    }

    fn size(&self, rule: u16) -> Option<u16> {
        let text = self.text(rule)?;
        Some(text.len() as u16)
    }

    fn byte(&self, rule: u16, at: u16) -> Option<u8> {
        self.text(rule)?.get(at as usize).copied()
    }
}

// The interface of a store.
ghost use Rattle.std.specs.Prelude.{◌≡◌, ℕ, true, List};
ghost use Rattle.grammar.specs.Texts.{all_fit};
ghost use Rattle.stores.specs.Answers.{count_of, size_of, byte_of};

// A list of rules in bytes. An implementation says which list it means, that each rule of it passes the questions
// for a single rule, and answers these three questions.
pub trait Store {
    ghost rules: { Self → List (List ℕ) };

    ghost fit: { (s : Self) → all_fit (rules s) ≡ true };

    // How many rules there are, or 65,535 if there are more.
    fn count(&self) -> u16
        ensures { result ≡ count_of (rules self.now) };

    // The number of bytes of a rule.
    fn size(&self, rule: u16) -> Option<u16>
        ensures { result ≡ size_of (rules self.now) rule };

    // A byte of a rule.
    fn byte(&self, rule: u16, at: u16) -> Option<u8>
        ensures { result ≡ byte_of (rules self.now) rule at };
}

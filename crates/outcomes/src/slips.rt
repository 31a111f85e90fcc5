// The bytes of a slip.
ghost use Rattle.std.specs.Prelude.{◌≡◌, List, ℕ};
ghost use Rattle.std.specs.Str.{bytes_eq};
ghost use Rattle.std.proofs.Common.{rules};
ghost use Rattle.std.specs.Cmp.Rules.{comparing};

use std::marker::Model;

// It is its bytes: two slips of the same bytes are equal.
#[derive(Debug, Drop)]
pub struct Slip {
    bytes: Vec<u8>,
}

impl Model for Slip {
    ghost Value = { List ℕ };

    ghost view = { λ s. s.bytes.items };
}

impl Slip {
    pub fn new(bytes: Vec<u8>) -> Slip
        ensures { result ≡ bytes.items }
    {
        Slip { bytes }
    }

    pub fn bytes(&self) -> &[u8]
        ensures { result.now ≡ self.now }
    {
        self.bytes.as_slice()
    }
}

impl PartialEq for Slip {
    ghost eq = { bytes_eq };

    ghost laws = { Prim.search (comparing, rules) };

    fn eq(&self, other: &Slip) -> bool {
        self.bytes() == other.bytes()
    }
}

impl Eq for Slip {
    ghost laws = { Prim.search (comparing, rules) };
}

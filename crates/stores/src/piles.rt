// One store over another.
ghost use Rattle.std.specs.Prelude.{◌≡◌, ◌++◌};
ghost use Rattle.stores.specs.Answers.{count_of};
ghost use Rattle.stores.specs.Fitting.{fit_append};
ghost use Rattle.stores.specs.Sides.{side_of};

use crate::stores::Store;

// The rules of the upper store, followed by those of the lower.
#[derive(Drop)]
pub struct Pile<U, L> {
    upper: U,
    lower: L,
}

// The store that has a rule, and the rule's number there.
#[derive(Clone, Copy)]
enum Side {
    Upper(u16),
    Lower(u16),
}

impl<U: Store, L: Store> Pile<U, L> {
    pub fn new(upper: U, lower: L) -> Self
        ensures upper { result.upper ≡ upper }
        ensures lower { result.lower ≡ lower }
    {
        Pile { upper, lower }
    }

    fn side(&self, rule: u16) -> Option<Side>
        ensures { result ≡ side_of (count_of (U.Store.rules self.now.upper)) rule }
    {
        if rule == u16::MAX {
            return None;
        }
        let above = self.upper.count();
        if rule < above {
            Some(Side::Upper(rule))
        } else {
            Some(Side::Lower(rule - above))
        }
    }
}

// The same three stores, the lower two piled first: the rules are the same.
pub fn regroup<A: Store, B: Store, C: Store>(pile: Pile<Pile<A, B>, C>) -> Pile<A, Pile<B, C>>
    ensures { A.Store.rules result.upper ++ (B.Store.rules result.lower.upper ++ C.Store.rules result.lower.lower) ≡ (A.Store.rules pile.upper.upper ++ B.Store.rules pile.upper.lower) ++ C.Store.rules pile.lower }
{
    let Pile {
        upper: Pile {
            upper,
            lower: middle,
        },
        lower,
    } = pile;
    Pile {
        upper,
        lower: Pile {
            upper: middle,
            lower,
        },
    }
}

impl<U: Store, L: Store> Store for Pile<U, L> {
    ghost rules = { λ p. U.Store.rules p.upper ++ L.Store.rules p.lower };

    ghost fit = { λ p. fit_append (U.Store.rules p.upper) (L.Store.rules p.lower) (U.Store.fit p.upper) (L.Store.fit p.lower) };

    fn count(&self) -> u16 {
        self.upper.count().saturating_add(self.lower.count())
    }

    fn size(&self, rule: u16) -> Option<u16> {
        match self.side(rule)? {
            Side::Upper(rule) => self.upper.size(rule),
            Side::Lower(rule) => self.lower.size(rule),
        }
    }

    fn byte(&self, rule: u16, at: u16) -> Option<u8> {
        match self.side(rule)? {
            Side::Upper(rule) => self.upper.byte(rule, at),
            Side::Lower(rule) => self.lower.byte(rule, at),
        }
    }
}

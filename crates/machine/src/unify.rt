// The occurs check and unification. Both recurse into first parts; rests go round a loop of the same call.
ghost use Rattle.std.specs.Prelude.{◌≡◌, ℕ, ◌<◌, slice_index_or, None};
ghost use Rattle.unification.specs.Variables.{occurs as occurs_in};
ghost use Rattle.unification.specs.Unification.{bind as bind_to, unify as unifier};
ghost use Rattle.bindings.specs.Shapes.{Shows};
ghost use Rattle.machine.specs.Views.{SeenOver, seen_as, Lent};
ghost use Rattle.machine.specs.Guards.{InOrder, Over, means, cells_of, ComesTo, OnlyBound};

use crate::guard::Guard;
use crate::text::{Text, first};
use crate::view::View;
use bindings::{Shape, TermAt};

impl View<'_> {
    // Whether the free cell occurs in the term.
    fn occurs(&self, cell: u16, term: TermAt) -> bool
        requires { SeenOver self.now term }
        ensures { result ≡ occurs_in cell (seen_as self.now term) }
    {
        let mut at = term;
        'rests: loop {
            match self.shape(at) {
                Shape::Open(open) => return cell == open,
                Shape::Atom(_) => return false,
                Shape::Pair(pair) => {
                    if self.occurs(cell, first(pair)) {
                        return true;
                    }
                    at = self.text.rest(pair);
                }
            }
        }
    }
}

impl Guard<'_> {
    // Lends the cells for reading with the text.
    fn view<'a>(&'a self, text: &'a Text) -> View<'a>
        requires { InOrder text.now.bytes self.now }
        ensures { Lent text.now (cells_of self.now) result }
    {
        View {
            text,
            cells: &*self.cells,
            used: self.used,
            newest: self.newest,
        }
    }

    // The form of a term.
    fn shape(&self, text: &Text, term: TermAt) -> Shape
        requires sound { InOrder text.now.bytes self.now }
        requires stands { Over text.now.bytes self.now term }
        ensures { Shows text.now.bytes self.now.used self.now.cells.now self.now.newest (means text.now.bytes self.now term) result }
    {
        self.view(text).shape(term)
    }

    // The free cell takes the term, unless it occurs in it. Inside `unify`, which would otherwise take it in, the view that it
    // lends would have room in the frame of every first part.
    #[inline(never)]
    fn assign(&mut self, text: &Text, cell: u16, term: TermAt) -> bool
        requires sound { InOrder text.now.bytes self.old }
        requires stands { Over text.now.bytes self.old term }
        requires inside { cell < self.old.used }
        requires free { slice_index_or self.old.cells.now cell None ≡ None }
        ensures only { OnlyBound self.old self.new }
        ensures ends { ComesTo text.now.bytes self.old self.new (bind_to cell (means text.now.bytes self.old term)) result }
    {
        if self.view(text).occurs(cell, term) {
            return false;
        }
        self.bind(cell, term);
        true
    }

    // Makes two terms equal by bindings, where that can be.
    pub(crate) fn unify(&mut self, text: &Text, left: TermAt, right: TermAt) -> bool
        requires sound { InOrder text.now.bytes self.old }
        requires left { Over text.now.bytes self.old left }
        requires right { Over text.now.bytes self.old right }
        ensures only { OnlyBound self.old self.new }
        ensures ends { ComesTo text.now.bytes self.old self.new (unifier (means text.now.bytes self.old left) (means text.now.bytes self.old right)) result }
    {
        let mut s = left;
        let mut t = right;
        'rests: loop {
            let one = self.shape(text, s);
            let other = self.shape(text, t);
            if one == other {
                return true;
            }
            if let Shape::Open(cell) = one {
                return self.assign(text, cell, t);
            }
            if let Shape::Open(cell) = other {
                return self.assign(text, cell, s);
            }
            let Shape::Pair(p) = one else {
                return false;
            };
            let Shape::Pair(q) = other else {
                return false;
            };
            if !self.unify(text, first(p), first(q)) {
                return false;
            }
            s = text.rest(p);
            t = text.rest(q);
        }
    }
}

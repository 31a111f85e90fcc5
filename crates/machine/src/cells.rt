// The cells of the variables in use.
ghost use Rattle.std.specs.Prelude.{◌≡◌, ℕ, List, slice_index_or, None};
ghost use Rattle.bindings.specs.Cells.{Cell};
ghost use Rattle.bindings.specs.Trails.{Since, none_bound};
ghost use Rattle.machine.specs.Views.{Lent};
ghost use Rattle.machine.specs.Tries.{Ordered};

use crate::text::Text;
use crate::view::View;
use bindings::{Binding, NONE_BOUND};
use resolution::limits::MOST_CELLS;

pub(crate) const CELLS: usize = MOST_CELLS as usize;

// The first `used` cells belong to variables in use; bound ones are linked from `newest` on. Every other is free. By a rule of
// the project it is a plain table without an invariant.
#[derive(Drop)]
pub(crate) struct Cells {
    pub(crate) table: [Option<Binding>; CELLS],
    pub(crate) used: u16,
    pub(crate) newest: u16,
}

// Takes back each binding from `newest` to `mark`.
pub(crate) fn unwind(cells: &mut [Option<Binding>], newest: u16, mark: u16)
    requires { (was : List Cell) × Since was mark cells.old newest }
    ensures { (was : List Cell) → Since was mark cells.old newest → cells.new ≡ was }
{
    let mut at = newest;
    while at != mark {
        let i = at as usize;
        match cells[i].take() {
            Some(binding) => at = binding.before,
            None => unreachable(),
        }
    }
}

impl Cells {
    // Free cells, so many of them in use.
    pub(crate) fn new(used: u16) -> Cells
        ensures free { (i : ℕ) → slice_index_or result.table i None ≡ None }
        ensures used { result.used ≡ used }
        ensures newest { result.newest ≡ none_bound }
    {
        Cells {
            table: [None; CELLS],
            used,
            newest: NONE_BOUND,
        }
    }

    // The cells lent for reading with the text.
    pub(crate) fn view<'a>(&'a self, text: &'a Text) -> View<'a>
        requires { Ordered text.now.bytes self.now }
        ensures { Lent text.now self.now result }
    {
        View {
            text,
            cells: &self.table,
            used: self.used,
            newest: self.newest,
        }
    }

    // Goes back to where so many cells were in use and `mark` was the newest bound one.
    pub(crate) fn back_to(&mut self, used: u16, mark: u16)
        requires { (was : List Cell) × Since was mark self.old.table self.old.newest }
        ensures table { (was : List Cell) → Since was mark self.old.table self.old.newest → self.new.table ≡ was }
        ensures used { self.new.used ≡ used }
        ensures newest { self.new.newest ≡ mark }
    {
        unwind(&mut self.table, self.newest, mark);
        self.used = used;
        self.newest = mark;
    }
}

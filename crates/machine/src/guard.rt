// The guard of a try: it takes back what the try bound, unless it is told to keep it.
ghost use Rattle.std.specs.Prelude.{◌≡◌, ◌<◌, true, false, List, length, slice_index_or, slice_set, None, Some};
ghost use Rattle.bindings.specs.Cells.{Cell};
ghost use Rattle.bindings.specs.Trails.{Since};
ghost use Rattle.machine.specs.Guards.{OnlyBound};

use crate::cells::unwind;
use bindings::{Binding, TermAt};

// By a rule of the project its one reference is the cells' slice, so that the text is a parameter and contracts ask for the
// order, and a try that succeeds tells it to keep what was bound.
pub(crate) struct Guard<'a> {
    pub(crate) cells: &'a mut [Option<Binding>],
    // how many cells are in use
    pub(crate) used: u16,
    // the newest bound cell, now and before the try
    pub(crate) newest: u16,
    pub(crate) mark: u16,
    pub(crate) keep: bool,
}

impl Drop for Guard<'_> {
    fn drop(self)
        requires { (was : List Cell) × Since was self.mark self.cells.now self.newest }
        ensures kept { self.entry.keep ≡ true → self.exit.0.now ≡ self.entry.cells.now }
        ensures undone { self.entry.keep ≡ false → (was : List Cell) → Since was self.entry.mark self.entry.cells.now self.entry.newest → self.exit.0.now ≡ was }
    {
        let Guard {
            cells,
            used: _,
            newest,
            mark,
            keep,
        } = self;
        if !keep {
            unwind(cells, newest, mark);
        }
    }
}

impl Guard<'_> {
    // What was bound stays.
    pub(crate) fn keep(&mut self)
        ensures cells { self.new.cells.now ≡ self.old.cells.now }
        ensures used { self.new.used ≡ self.old.used }
        ensures newest { self.new.newest ≡ self.old.newest }
        ensures mark { self.new.mark ≡ self.old.mark }
        ensures keep { self.new.keep ≡ true }
        ensures same { self.new.cells.ghost_name ≡ self.old.cells.ghost_name }
    {
        self.keep = true;
    }

    // Binds a free cell to a term. `OnlyBound` is what a method leaves as it was, and no fact of one value.
    pub(crate) fn bind(&mut self, cell: u16, term: TermAt)
        requires { (cell < length self.old.cells.now) × (slice_index_or self.old.cells.now cell None ≡ None) }
        ensures cells { self.new.cells.now ≡ slice_set self.old.cells.now cell (Some (record { term = term; before = self.old.newest })) }
        ensures newest { self.new.newest ≡ cell }
        ensures only { OnlyBound self.old self.new }
    {
        let before = self.newest;
        self.cells[cell as usize] = Some(Binding { term, before });
        self.newest = cell;
    }
}

// The cells as they are lent for reading.
ghost use Rattle.std.specs.Prelude.{◌≡◌, ℕ, ◌+◌, ◌<◌, true};
ghost use Rattle.bindings.specs.Checks.{sound?};
ghost use Rattle.bindings.specs.Shapes.{Shows};

use crate::text::Text;
use bindings::{Binding, Shape, TermAt};
use grammar::bytes::{ATOM, VARIABLE};

// The text, and cells that are in order over it.
#[derive(Clone, Copy)]
pub(crate) struct View<'a> {
    pub(crate) text: &'a Text,
    pub(crate) cells: &'a [Option<Binding>],
    // how many cells are in use, and the newest bound one
    pub(crate) used: u16,
    pub(crate) newest: u16,
    ghost sound: { sound? text.now.bytes used cells.now newest ≡ true },
}

impl View<'_> {
    ghost use Rattle.machine.specs.Views.{SeenOver, seen_as};

    // The form of a term: bound cells are looked up. That a term stands under the view is asked here, in the occurs check and in
    // writing: a struct of the two would be made anew for each part of a term.
    pub(crate) fn shape(&self, term: TermAt) -> Shape
        requires { SeenOver self.now term }
        ensures { Shows self.now.text.now.bytes self.now.used self.now.cells.now self.now.newest (seen_as self.now term) result }
    {
        let text = self.text.as_slice();
        let mut at = term;
        'looking: loop {
            let place = at.place as usize;
            let cell = match text[place] {
                ATOM => return Shape::Atom(u16::from_be_bytes([text[place + 1], text[place + 2]])),
                VARIABLE => at.level + u16::from(text[place + 1]),
                _ => return Shape::Pair(at),
            };
            match self.cells[cell as usize] {
                Some(binding) => at = binding.term,
                None => return Shape::Open(cell),
            }
        }
    }
}

// Writing a term with all bindings put in.
ghost use Rattle.std.specs.Prelude.{◌≡◌, ℕ, ◌<◌, ◌≤◌, true};
ghost use Rattle.terms.specs.declared.Form.TheVariants.{Rules};
ghost use Rattle.terms.specs.Terms.{var};
ghost use Rattle.terms.specs.Bytes.{encoding};
ghost use Rattle.slips.specs.Numberings.{Names};
ghost use Rattle.bindings.specs.Checks.{stands?};
ghost use Rattle.machine.specs.Views.{SeenOver, seen_as};
ghost use Rattle.machine.specs.Numberings.{Named, Writes};

use crate::numbering::Numbering;
use crate::sink::{NoRoom, Sink, Written};
use crate::text::first;
use crate::view::View;
use bindings::{Shape, TermAt};
use grammar::bytes::PAIR;

// Takes terms: a sink for their bytes, and how their variables are named.
#[derive(Drop)]
pub(crate) struct Writer<'a, 'b> {
    pub(crate) numbering: Numbering,
    pub(crate) sink: &'a mut Sink<'b>,
}

impl Writer<'_, '_> {
    // Puts a free cell, as the numbering names it.
    pub(crate) fn open(&mut self, cell: u16) -> Result<(), NoRoom>
        requires { (used : ℕ) × (ns : Names) × (cell < used) × Named self.old.numbering used ns }
        ensures { (used : ℕ) → cell < used → Writes used self.old self.new (var cell) result }
    {
        match &mut self.numbering {
            Numbering::ByCell => self.sink.variable(cell as u8),
            Numbering::ByFirst(unknowns) => {
                let number = unknowns.number(cell);
                self.sink.unknown(number)
            }
        }
    }
}

impl View<'_> {
    // Puts a term with all bindings put in, as far as there is room.
    pub(crate) fn write(&self, term: TermAt, writer: &mut Writer) -> Result<(), NoRoom>
        requires stands { SeenOver self.now term }
        requires named { (ns : Names) × Named writer.old.numbering self.now.used ns }
        ensures { Writes self.now.used writer.old writer.new (seen_as self.now term) result }
    {
        let mut at = term;
        'rests: loop {
            match self.shape(at) {
                Shape::Open(cell) => return writer.open(cell),
                Shape::Atom(number) => return writer.sink.atom(number),
                Shape::Pair(pair) => {
                    writer.sink.put(PAIR)?;
                    self.write(first(pair), writer)?;
                    at = self.text.rest(pair);
                }
            }
        }
    }
}

// A term with all bindings put in, each variable by its cell.
#[derive(Clone, Copy)]
pub(crate) struct Instance<'a> {
    pub(crate) view: View<'a>,
    pub(crate) term: TermAt,
    ghost stands: { stands? view.text.now.bytes view.used term.place term.level ≡ true },
    ghost few: { view.used ≤ 256 },
}

impl Written for Instance<'_> {
    ghost bytes = { λ i. encoding Rules (seen_as i.view i.term) };

    fn put(&self, sink: &mut Sink) -> Result<(), NoRoom> {
        let mut writer = Writer {
            numbering: Numbering::by_cell(),
            sink,
        };
        self.view.write(self.term, &mut writer)
    }
}

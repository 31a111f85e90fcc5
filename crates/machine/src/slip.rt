// Answers and slips in bytes.
ghost use Rattle.std.specs.Prelude.{◌≡◌, ℕ, ◌+◌, ◌<◌, ◌≤◌, List, [], length, take, drop, IfOk};
ghost use Rattle.slips.specs.Slips.{numbered, answer_bytes, step_bytes};
ghost use Rattle.slips.specs.Numberings.{Names, by_first};
ghost use Rattle.machine.specs.Sinks.{Puts};
ghost use Rattle.machine.specs.Numberings.{Named, Writes, WritesAll, counted_bytes, seen_terms, seen_cell, Met};

use crate::instance::Writer;
use crate::sink::NoRoom;
use crate::view::View;
use grammar::bytes::{ANSWER, STEP};

// A step as a slip names it: its rule, the first of its cells, and how many it has.
#[derive(Clone, Copy)]
pub(crate) struct StepCells {
    pub(crate) rule: u16,
    pub(crate) level: u16,
    pub(crate) variables: u8,
}

impl View<'_> {
    // Puts the present term of a cell in use.
    fn write_cell(&self, cell: u16, writer: &mut Writer) -> Result<(), NoRoom>
        requires inside { cell < self.now.used }
        requires named { (ns : Names) × Named writer.old.numbering self.now.used ns }
        ensures { Writes self.now.used writer.old writer.new (seen_cell self.now cell) result }
    {
        match self.cells[cell as usize] {
            Some(binding) => self.write(binding.term, writer),
            None => writer.open(cell),
        }
    }

    // Puts the present terms of so many cells, one after the other.
    fn write_cells(&self, from: u16, count: u8, writer: &mut Writer) -> Result<(), NoRoom>
        requires inside { from + count ≤ self.now.used }
        requires named { (xs : List ℕ) × Named writer.old.numbering self.now.used (by_first xs) }
        requires room { writer.old.sink.now.count ≤ length writer.old.sink.now.buffer.now }
        ensures { WritesAll self.now.used writer.old writer.new (take count (drop from (seen_terms self.now))) result }
    {
        for cell in from..from + u16::from(count) {
            self.write_cell(cell, writer)?;
        }
        Ok(())
    }

    // Puts how many cells there are, and their present terms, once all cells before them are met. The writer changes and the view
    // stays, so that they are two parameters; that the writer's sink is the same reference as before no type says.
    fn write_counted(&self, from: u16, count: u8, writer: &mut Writer) -> Result<(), NoRoom>
        requires inside { from + count ≤ self.now.used }
        requires met { Met self.now from writer.old.numbering }
        ensures same { writer.new.sink.ghost_name ≡ writer.old.sink.ghost_name }
        ensures puts { Puts writer.old.sink.now writer.new.sink.now (counted_bytes (take count (drop from (numbered (seen_terms self.now))))) result }
        ensures met { IfOk result (λ u. Met self.now (from + count) writer.new.numbering) }
    {
        writer.sink.put(count)?;
        self.write_cells(from, count, writer)
    }

    // Puts an answer: the present term of each of the query's variables, which have the first cells.
    pub(crate) fn write_answer(&self, variables: u8, writer: &mut Writer) -> Result<(), NoRoom>
        requires inside { variables ≤ self.now.used }
        requires met { Met self.now 0 writer.old.numbering }
        ensures same { writer.new.sink.ghost_name ≡ writer.old.sink.ghost_name }
        ensures puts { Puts writer.old.sink.now writer.new.sink.now (answer_bytes (record { terms = take variables (numbered (seen_terms self.now)); steps = [] })) result }
        ensures met { IfOk result (λ u. Met self.now variables writer.new.numbering) }
    {
        writer.sink.put(ANSWER)?;
        self.write_counted(0, variables, writer)
    }

    // Puts a step, once all cells before its own are met.
    pub(crate) fn write_step(&self, step: StepCells, writer: &mut Writer) -> Result<(), NoRoom>
        requires inside { step.level + step.variables ≤ self.now.used }
        requires met { Met self.now step.level writer.old.numbering }
        ensures same { writer.new.sink.ghost_name ≡ writer.old.sink.ghost_name }
        ensures puts { Puts writer.old.sink.now writer.new.sink.now (step_bytes (record { rule = step.rule; terms = take step.variables (drop step.level (numbered (seen_terms self.now))) })) result }
        ensures met { IfOk result (λ u. Met self.now (step.level + step.variables) writer.new.numbering) }
    {
        writer.sink.command(STEP, step.rule)?;
        self.write_counted(step.level, step.variables, writer)
    }
}

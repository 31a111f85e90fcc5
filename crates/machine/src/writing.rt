// Writing the answer or the slip of where a search stands.
ghost use Rattle.std.specs.Prelude.{◌≡◌, ◌≤◌, length};
ghost use Rattle.slips.specs.Slips.{slip_of, answer_bytes, steps_bytes, slip_bytes};
ghost use Rattle.machine.specs.Machines.{rules, query as query_of, place, state};
ghost use Rattle.machine.specs.Sinks.{Puts, Passed, fitting, written};
ghost use Rattle.machine.specs.Numberings.{Met};
ghost use Rattle.machine.specs.Writings.{slip_at};
ghost use Rattle.machine.specs.Views.{Lent};

use crate::instance::Writer;
use crate::machine::Machine;
use crate::numbering::Numbering;
use crate::sink::{NoRoom, Sink, Written, write};
use crate::slip::StepCells;
use crate::view::View;
use grammar::bytes::END;

// The answer of where a search stands.
#[derive(Clone, Copy)]
struct AnswerOf<'a> {
    machine: &'a Machine,
}

// The slip of where it stands.
#[derive(Clone, Copy)]
struct SlipOf<'a> {
    machine: &'a Machine,
}

impl Machine {
    // Lends the cells over the text.
    fn view(&self) -> View<'_>
        ensures { Lent self.now.tables.text self.now.tables.cells result }
    {
        self.tables.cells.view(&self.tables.text)
    }

    // Puts the steps, oldest first, once the cells of the query are met.
    fn put_steps(&self, view: &View, writer: &mut Writer) -> Result<(), NoRoom>
        requires lent { Lent self.now.tables.text self.now.tables.cells view.now }
        requires met { Met view.now self.now.question.variables writer.old.numbering }
        requires room { writer.old.sink.now.count ≤ length writer.old.sink.now.buffer.now }
        ensures same { writer.new.sink.ghost_name ≡ writer.old.sink.ghost_name }
        ensures puts { Puts writer.old.sink.now writer.new.sink.now (steps_bytes (slip_at (state self.now)).steps) result }
    {
        for step in self.tables.branch.taken() {
            let clause = self.clauses[step.rule as usize];
            let cells = StepCells {
                rule: step.rule,
                level: step.level,
                variables: clause.variables,
            };
            view.write_step(cells, writer)?;
        }
        Ok(())
    }

    // Writes the answer of this place at the beginning of the buffer and returns its length. One that is longer than the
    // buffer leaves it as it was.
    pub fn write_answer(&self, buffer: &mut [u8]) -> Option<usize>
        ensures length { result ≡ fitting (answer_bytes (slip_of (rules self.now) (query_of self.now) (place self.now))) buffer.old }
        ensures buffer { buffer.new ≡ written (answer_bytes (slip_of (rules self.now) (query_of self.now) (place self.now))) buffer.old }
    {
        write(&AnswerOf { machine: self }, buffer)
    }

    // The same for the slip. The two differ in what is lent to `write`, and that is one word of each.
    pub fn write_slip(&self, buffer: &mut [u8]) -> Option<usize>
        ensures length { result ≡ fitting (slip_bytes (slip_of (rules self.now) (query_of self.now) (place self.now))) buffer.old }
        ensures buffer { buffer.new ≡ written (slip_bytes (slip_of (rules self.now) (query_of self.now) (place self.now))) buffer.old }
    {
        write(&SlipOf { machine: self }, buffer)
    }
}

impl Written for AnswerOf<'_> {
    ghost bytes = { λ a. answer_bytes (slip_at (state a.machine.now)) };

    fn put(&self, sink: &mut Sink) -> Result<(), NoRoom> {
        let mut writer = Writer {
            numbering: Numbering::by_first(),
            sink,
        };
        self.machine
            .view()
            .write_answer(self.machine.question.variables, &mut writer)
    }
}

impl Written for SlipOf<'_> {
    ghost bytes = { λ s. slip_bytes (slip_at (state s.machine.now)) };

    // The answer comes first.
    fn put(&self, sink: &mut Sink) -> Result<(), NoRoom> {
        let view = self.machine.view();
        let mut writer = Writer {
            numbering: Numbering::by_first(),
            sink,
        };
        view.write_answer(self.machine.question.variables, &mut writer)?;
        self.machine.put_steps(&view, &mut writer)?;
        writer.sink.put(END)
    }
}

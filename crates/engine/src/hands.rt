// The answer in hand, and what is written of it.
ghost use Rattle.std.specs.Prelude.{◌≡◌, IfOk};
ghost use Rattle.reading.specs.Views.{seen};
ghost use Rattle.slips.specs.Slips.{slip_of, numbers, answer_bytes, slip_bytes};
ghost use Rattle.slips.specs.Runs.{wrote, hold as definition_hold, written, written_if};
ghost use Rattle.engine.specs.Models.{rules_of, query_of, model};

use crate::search::{Condition, Search};
use machine::numbers::Numbers;
use slips::faults::WriteRefusal;

// While it is in hand the search is lent for reading, so that neither next nor rewind can be called.
#[derive(Clone, Copy)]
pub struct Answer<'a> {
    search: &'a Search,
}

impl Search {
    // Hands out the answer that stands.
    pub fn hold(&self) -> Result<Answer<'_>, WriteRefusal>
        ensures value { seen (λ _. tt) result ≡ definition_hold (model self.now).condition }
        ensures answer { IfOk result (λ a. a.search.now ≡ self.now) }
    {
        match self.condition {
            Condition::Standing => Ok(Answer { search: self }),
            _ => Err(WriteRefusal::NoAnswer),
        }
    }
}

impl Answer<'_> {
    // Writes the answer at the beginning of the buffer and returns its length. Bytes beyond stay; a buffer without room
    // for it stays as it was.
    pub fn answer(&self, buffer: &mut [u8]) -> Result<usize, WriteRefusal>
        ensures { wrote result buffer.new ≡ written (answer_bytes (slip_of (rules_of self.now.search.now) (query_of self.now.search.now) (model self.now.search.now).place)) buffer.old }
    {
        self.search
            .machine
            .write_answer(buffer)
            .ok_or(WriteRefusal::NoRoom)
    }

    // The same for the slip. Callers know the two by their names; below them there is one function that writes.
    pub fn slip(&self, buffer: &mut [u8]) -> Result<usize, WriteRefusal>
        ensures { wrote result buffer.new ≡ written (slip_bytes (slip_of (rules_of self.now.search.now) (query_of self.now.search.now) (model self.now.search.now).place)) buffer.old }
    {
        self.search
            .machine
            .write_slip(buffer)
            .ok_or(WriteRefusal::NoRoom)
    }

    // The rule numbers of its steps, oldest first.
    pub fn numbers(&self) -> Numbers
        ensures { result.items ≡ numbers (slip_of (rules_of self.now.search.now) (query_of self.now.search.now) (model self.now.search.now).place).steps }
    {
        self.search.machine.numbers()
    }
}

impl Search {
    // Whether an answer can be held.
    pub(crate) fn held(&self) -> Result<(), WriteRefusal>
        ensures { result ≡ definition_hold (model self.now).condition }
    {
        self.hold().map(|_| ())
    }

    // Holds the answer and writes it.
    pub(crate) fn write_answer(&self, buffer: &mut [u8]) -> Result<usize, WriteRefusal>
        ensures { wrote result buffer.new ≡ written_if (definition_hold (model self.now).condition) (answer_bytes (slip_of (rules_of self.now) (query_of self.now) (model self.now).place)) buffer.old }
    {
        self.hold()?.answer(buffer)
    }

    // The same for the slip; one function for both would take the method to call, and be no plainer.
    pub(crate) fn write_slip(&self, buffer: &mut [u8]) -> Result<usize, WriteRefusal>
        ensures { wrote result buffer.new ≡ written_if (definition_hold (model self.now).condition) (slip_bytes (slip_of (rules_of self.now) (query_of self.now) (model self.now).place)) buffer.old }
    {
        self.hold()?.slip(buffer)
    }
}

// The table of a board.
ghost use Rattle.std.specs.Prelude.{◌≡◌, ℕ, ◌-◌, ◌<◌, ◌≤◌, [], ◌∷◌, length, map, slice_index};
ghost use Rattle.std.specs.Option.{option_map};
ghost use Rattle.boards.specs.Changes.{pushed, removed, said, left};
ghost use Rattle.stores.specs.Answers.{count_of, text_of};

use crate::faults::{AddFault, RemoveFault};
use arrayvec::ArrayVec;
use std::marker::Model;

const MOST_RULES: usize = 128;

const MOST_BYTES: usize = 8192;

// Rules one right after the other, and where each of them ends.
#[derive(Drop)]
pub(crate) struct Table {
    ends: ArrayVec<u16, MOST_RULES>,
    bytes: ArrayVec<u8, MOST_BYTES>,
}

impl Model for Table {
    ghost use Rattle.std.specs.Prelude.{ℕ, List};
    ghost use Rattle.boards.specs.Tables.{cut, Held};

    ghost Value = { List (List ℕ) };

    ghost view = { λ t. cut 0 t.ends.items t.bytes.items };

    ghost invariant = { λ t. Held t.ends.items t.bytes.items (cut 0 t.ends.items t.bytes.items) };
}

impl Table {
    pub(crate) fn new() -> Table
        ensures { result ≡ [] }
    {
        Table {
            ends: ArrayVec::new(),
            bytes: ArrayVec::new(),
        }
    }

    pub(crate) fn count(&self) -> u16
        ensures { result ≡ count_of self.now }
    {
        self.ends.len() as u16
    }

    // The bytes of a rule.
    pub(crate) fn text(&self, rule: u16) -> Option<&[u8]>
        ensures { option_map (λ x. x.now) result ≡ text_of self.now rule }
    {
        let ends = self.ends.as_slice();
        let end = *ends.get(rule as usize)?;
        Some(&self.bytes.as_slice()[begin(ends, rule) as usize..end as usize])
    }

    // Puts a rule after the others. A refusal leaves the table as it was.
    pub(crate) fn push(&mut self, text: &[u8]) -> Result<(), AddFault>
        ensures value { result ≡ said (pushed self.old text.now) }
        ensures after { self.new ≡ left (pushed self.old text.now) self.old }
    {
        if self.ends.is_full() {
            return Err(AddFault::Full);
        }
        if self.bytes.try_extend_from_slice(text).is_err() {
            return Err(AddFault::Large);
        }
        self.ends.push(self.bytes.len() as u16);
        Ok(())
    }

    // Takes a rule out; those after it move up. A refusal leaves the table as it was.
    pub(crate) fn remove(&mut self, rule: u16) -> Result<(), RemoveFault>
        ensures value { result ≡ said (removed self.old rule) }
        ensures after { self.new ≡ left (removed self.old rule) self.old }
    {
        let end = self.ends.pop_at(rule as usize).ok_or(RemoveFault::Missing)?;
        let begin = begin(self.ends.as_slice(), rule);
        self.bytes.drain(begin as usize..end as usize);
        lower(&mut self.ends.as_mut_slice()[rule as usize..], end - begin);
        Ok(())
    }
}

// Where a rule begins: where the one before it ends.
fn begin(ends: &[u16], rule: u16) -> u16
    requires { rule ≤ length ends.now }
    ensures { result ≡ slice_index (0 ∷ ends.now) rule }
{
    ends[..rule as usize].last().copied().unwrap_or(0)
}

// Takes so many bytes off each end.
fn lower(ends: &mut [u16], size: u16)
    requires { (k : ℕ) → k < length ends.old → size ≤ slice_index ends.old k }
    ensures { ends.new ≡ map (λ e. e - size) ends.old }
{
    for end in ends {
        *end -= size;
    }
}

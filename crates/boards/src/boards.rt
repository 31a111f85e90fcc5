// Boards: rules that are put up one by one and taken down again.
ghost use Rattle.std.specs.Prelude.{◌≡◌, true, []};
ghost use Rattle.grammar.specs.Texts.{all_fit};
ghost use Rattle.boards.specs.Changes.{added, removed, said, left};

use crate::faults::{AddFault, RemoveFault};
use crate::tables::Table;
use reading::rules::read_rule;
use stores::texts::Texts;

// A board has its rules inside it and asks for no memory.
#[derive(Drop)]
pub struct Board {
    table: Table,
    ghost fit: { all_fit table ≡ true },
}

impl Texts for Board {
    ghost rules = { λ b. b.table };

    ghost fit = { λ b. b.fit };

    fn count(&self) -> u16 {
        self.table.count()
    }

    fn text(&self, rule: u16) -> Option<&[u8]> {
        self.table.text(rule)
    }
}

impl Board {
    // A board with no rule.
    pub fn new() -> Board
        ensures { result.table ≡ [] }
    {
        Board {
            table: Table::new(),
        }
    }

    // Puts a rule up after the others. A refusal leaves the board as it was.
    pub fn add(&mut self, rule: &[u8]) -> Result<(), AddFault>
        ensures value { result ≡ said (added self.old.table rule.now) }
        ensures after { self.new.table ≡ left (added self.old.table rule.now) self.old.table }
    {
        let _ = read_rule(rule)?;
        self.table.push(rule)
    }

    // Takes a rule down; those after it move up. A refusal leaves the board as it was.
    pub fn remove(&mut self, rule: u16) -> Result<(), RemoveFault>
        ensures value { result ≡ said (removed self.old.table rule) }
        ensures after { self.new.table ≡ left (removed self.old.table rule) self.old.table }
    {
        self.table.remove(rule)
    }
}

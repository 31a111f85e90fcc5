// The moves of a search: each says what the definition's place becomes.
ghost use Rattle.std.specs.Prelude.{◌≡◌, length};
ghost use Rattle.resolution.specs.Search.{opened};
ghost use Rattle.branches.specs.Moves.{due_at, off, attempted};
ghost use Rattle.machine.specs.Machines.{rules, query as query_of, place};

use crate::attempt::Head;
use crate::cells::Cells;
use crate::machine::Machine;
use branches::Due;
use resolution::Stop;
use resolution::limits::{MOST_CELLS, MOST_STEPS};

impl Machine {
    // What is due here.
    pub fn due(&self) -> Due
        ensures { result ≡ due_at (rules self.now) (place self.now) }
    {
        if self.goals.left == 0 {
            return Due::Nothing;
        }
        if self.due as usize >= self.clauses.len() {
            return Due::NoRule;
        }
        if self.tables.branch.depth() >= usize::from(MOST_STEPS) {
            return Due::Stop(Stop::Deep);
        }
        let clause = self.clauses[self.due as usize];
        if u16::from(clause.variables) > MOST_CELLS - self.tables.cells.used {
            return Due::Stop(Stop::Cells);
        }
        Due::Rule
    }

    // That rules and query stay is a clause of every move: no type says it of a part of a value.

    // Takes off the newest step with its cells and every binding made since, and says whether there was one; without one
    // everything stays.
    pub fn back(&mut self) -> bool
        ensures rules { rules self.new ≡ rules self.old }
        ensures query { query_of self.new ≡ query_of self.old }
        ensures value { result ≡ (off (place self.old).branch (place self.old)).0 }
        ensures place { place self.new ≡ (off (place self.old).branch (place self.old)).1 }
    {
        let Some(step) = self.tables.branch.leave() else {
            return false;
        };
        self.tables.cells.back_to(step.level, step.mark);
        self.goals = step.goals;
        self.due = step.rule + 1;
        true
    }

    // Tries the rule that is due, where a try can be made.
    pub fn attempt(&mut self)
        ensures rules { rules self.new ≡ rules self.old }
        ensures query { query_of self.new ≡ query_of self.old }
        ensures place { place self.new ≡ attempted (rules self.old) (place self.old) }
    {
        let Due::Rule = self.due() else {
            return;
        };
        let clause = self.clauses[self.due as usize];
        let level = self.tables.cells.used;
        let head = Head {
            place: clause.head,
            variables: clause.variables,
        };
        if !self.tables.try_rule(self.due, head, self.goals) {
            self.due += 1;
            return;
        }
        self.goals = self.tables.goals_with(clause, level, self.goals);
        self.due = 0;
    }

    // Goes back to where the search was opened.
    pub fn rewind(&mut self)
        ensures rules { rules self.new ≡ rules self.old }
        ensures query { query_of self.new ≡ query_of self.old }
        ensures place { place self.new ≡ (opened (query_of self.old)).place }
    {
        self.tables.branch.clear();
        self.tables.cells = Cells::new(u16::from(self.question.variables));
        self.goals = self.question.goals();
        self.due = 0;
    }

    // How many steps the branch has.
    pub fn steps(&self) -> u16
        ensures { result ≡ length (place self.now).branch }
    {
        self.tables.branch.depth() as u16
    }

    // How many cells are in use.
    pub fn cells(&self) -> u16
        ensures { result ≡ length (place self.now).cells }
    {
        self.tables.cells.used
    }
}

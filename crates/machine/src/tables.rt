// The tables of a search.
ghost use Rattle.std.specs.Prelude.{◌≡◌, ℕ, ◌+◌, ◌-◌, ◌<◌, ◌≤◌, true, false, ◌∷◌, ◌++◌, [], length, Some};
ghost use Rattle.machine.specs.Tries.{Ready, Tried, first_at};
ghost use Rattle.machine.specs.Branches.{taken};
ghost use Rattle.machine.specs.Climbs.{Climbing, Climbed};

use crate::attempt::{Head, attempt};
use crate::branch::Branch;
use crate::cells::Cells;
use crate::text::Text;
use bindings::TermAt;
use branches::{Clause, Goals, Step};

#[derive(Drop)]
pub(crate) struct Tables {
    pub(crate) text: Text,
    pub(crate) cells: Cells,
    pub(crate) branch: Branch,
}

impl Tables {
    // Lends a try the text for reading and the cells for writing.
    pub(crate) fn try_head(&mut self, head: Head, goal: TermAt) -> bool
        requires { Ready self.old.text.bytes self.old.cells head goal }
        ensures text { self.new.text ≡ self.old.text }
        ensures tried { Tried self.old.text.bytes self.old.cells head goal self.new.cells result }
        ensures branch { self.new.branch ≡ self.old.branch }
    {
        attempt(&self.text, &mut self.cells, head, goal)
    }

    // Tries the rule with this number and head on the first of the goals; where it is taken it is the newest step.
    pub(crate) fn try_rule(&mut self, rule: u16, head: Head, goals: Goals) -> bool
        requires ready { Ready self.old.text.bytes self.old.cells head (first_at goals) }
        requires room { (self.old.branch.depth ≤ 512) × (length (taken self.old.branch) < 512) }
        ensures text { self.new.text ≡ self.old.text }
        ensures tried { Tried self.old.text.bytes self.old.cells head (first_at goals) self.new.cells result }
        ensures left { result ≡ false → self.new.branch ≡ self.old.branch }
        ensures depth { self.new.branch.depth ≤ 512 }
        ensures steps { result ≡ true → taken self.new.branch ≡ taken self.old.branch ++ record { rule = rule; goals = goals; level = self.old.cells.used; mark = self.old.cells.newest } ∷ [] }
    {
        let step = Step {
            rule,
            goals,
            level: self.cells.used,
            mark: self.cells.newest,
        };
        if !self.try_head(
            head,
            TermAt {
                place: goals.place,
                level: goals.level,
            },
        ) {
            return false;
        }
        self.branch.take(step);
        true
    }

    // The goals that remain behind the first of these: the others of its row, or else what remained behind the goal of
    // the step above, and so on up the branch.
    fn behind(&self, goals: Goals) -> Goals
        requires { Climbing self.now goals }
        ensures { Climbed self.now goals result }
    {
        let mut at = goals;
        'up: loop {
            if at.left > 1 {
                let place = self.text.end(at.place as usize) as u16;
                return Goals {
                    place,
                    level: at.level,
                    left: at.left - 1,
                    above: at.above,
                };
            }
            let Some(above) = at.above else {
                return Goals::default();
            };
            at = self.branch.taken()[above as usize].goals;
        }
    }

    // The goals once a rule was taken on the first of these, and its cells begin at `level`: its own, and behind them what
    // remains behind the first of these.
    pub(crate) fn goals_with(&self, clause: Clause, level: u16, goals: Goals) -> Goals
        requires climbing { clause.goals ≡ 0 → Climbing self.now goals }
        requires some { (self.now.branch.depth ≤ 512) × (0 < length (taken self.now.branch)) }
        ensures own { 0 < clause.goals → result ≡ record { place = clause.body; level = level; left = clause.goals; above = Some (length (taken self.now.branch) - 1) } }
        ensures behind { clause.goals ≡ 0 → Climbed self.now goals result }
    {
        if clause.goals == 0 {
            return self.behind(goals);
        }
        Goals {
            place: clause.body,
            level,
            left: clause.goals,
            above: Some(self.branch.depth() as u16 - 1),
        }
    }
}

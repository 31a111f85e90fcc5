// A search whose tables are in order.
ghost use Rattle.std.specs.Prelude.{◌≡◌, true};
ghost use Rattle.machine.specs.States.{good};

use crate::question::Question;
use crate::tables::Tables;
use arrayvec::ArrayVec;
use branches::{Clause, Goals};
use grammar::limits::MOST_RULES;

pub(crate) const CLAUSES: usize = MOST_RULES as usize;

// It owns copies of the rules and of the query.
#[derive(Drop)]
pub struct Machine {
    pub(crate) tables: Tables,
    // where each rule stands, by its number
    pub(crate) clauses: ArrayVec<Clause, CLAUSES>,
    pub(crate) question: Question,
    // the goals that remain, and the rule that is due for the first of them
    pub(crate) goals: Goals,
    pub(crate) due: u16,
    ghost kept: { good (record { tables = tables; clauses = clauses.items; question = question; goals = goals; due = due }) ≡ true },
}

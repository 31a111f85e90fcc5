// Opening a search over a store: the query and the rules are copied into the text, byte by byte, in one pass.
ghost use Rattle.std.specs.Prelude.{◌≡◌, ◌<◌, ◌≤◌, [], length, slice_index_or, IfOk};
ghost use Rattle.terms.specs.Terms.{Rule};
ghost use Rattle.grammar.specs.Encodings.{rule_bytes, FitRule};
ghost use Rattle.reading.specs.Views.{seen};
ghost use Rattle.resolution.specs.Search.{opened};
ghost use Rattle.stores.specs.Answers.{count_of};
ghost use Rattle.slips.specs.Opening.{opening};
ghost use Rattle.bindings.specs.Texts.{Holds};
ghost use Rattle.branches.specs.Copies.{clause_of};
ghost use Rattle.machine.specs.Openings.{Copied, Gathered};
ghost use Rattle.machine.specs.Machines.{query as query_of, place, opened_with};

use crate::branch::Branch;
use crate::cells::Cells;
use crate::machine::{CLAUSES, Machine};
use crate::question::Question;
use crate::tables::Tables;
use crate::text::Text;
use arrayvec::ArrayVec;
use branches::Clause;
use grammar::limits::{HEADER, MOST_RULES};
use reading::rules::read_query;
use slips::faults::OpeningFault;
use stores::rule_bytes::RuleBytes;
use stores::stores::Store;

impl Text {
    // Copies a rule's bytes to the end.
    fn copy_rule<S: Store>(&mut self, store: &S, rule: u16) -> Result<(), OpeningFault>
        requires { rule < count_of (S.Store.rules store.now) }
        ensures { Copied self.old (slice_index_or (S.Store.rules store.now) rule []) self.new result }
    {
        for byte in RuleBytes::new(store, rule) {
            self.bytes
                .try_push(byte)
                .map_err(|_| OpeningFault::TooManyBytes)?;
        }
        Ok(())
    }

    // Where the parts of the rule stand whose bytes begin at this place.
    fn clause(&self, begin: usize) -> Clause
        requires { (r : Rule) × FitRule r × Holds self.now.bytes begin (rule_bytes r) }
        ensures { (r : Rule) → FitRule r → Holds self.now.bytes begin (rule_bytes r) → result ≡ clause_of begin r }
    {
        let text = self.bytes.as_slice();
        let head = begin + HEADER;
        Clause {
            head: head as u16,
            body: self.end(head) as u16,
            variables: text[begin + 1],
            goals: text[begin + 2],
        }
    }
}

// Copies every rule, and notes where each stands.
fn gather<S: Store>(store: &S, text: &mut Text) -> Result<ArrayVec<Clause, CLAUSES>, OpeningFault>
    requires { length (S.Store.rules store.now) ≤ 1024 }
    ensures { Gathered text.old (S.Store.rules store.now) text.new result }
{
    let mut clauses = ArrayVec::new();
    let mut begin = text.len();
    for rule in 0..store.count() {
        text.copy_rule(store, rule)?;
        clauses.push(text.clause(begin));
        begin = text.len();
    }
    Ok(clauses)
}

impl Machine {
    // Opens a search over a store's rules and a query; both are copied.
    pub fn open<S: Store>(store: &S, query: &[u8]) -> Result<Machine, OpeningFault>
        ensures opened { seen opened_with result ≡ opening (S.Store.rules store.now) query.now }
        ensures start { IfOk result (λ m. place m ≡ (opened (query_of m)).place) }
    {
        let asked = read_query(query)?;
        if store.count() > MOST_RULES {
            return Err(OpeningFault::TooManyRules);
        }
        let mut text = Text::new();
        text.append(query);
        let clauses = gather(store, &mut text)?;
        let question = Question {
            place: HEADER as u16,
            variables: asked.variables,
            goals: asked.goals,
        };
        let goals = question.goals();
        let tables = Tables {
            text,
            cells: Cells::new(u16::from(asked.variables)),
            branch: Branch::new(),
        };
        Ok(Machine {
            tables,
            clauses,
            question,
            goals,
            due: 0,
        })
    }
}

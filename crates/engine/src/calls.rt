// The calls on a search.
ghost use Rattle.std.specs.Prelude.{◌≡◌, ◌+◌, IfOk};
ghost use Rattle.reading.specs.Views.{seen};
ghost use Rattle.resolution.specs.Search.{opened, held, condition_after, answers_after, next as definition_next, rewind as definition_rewind, tally as definition_tally};
ghost use Rattle.slips.specs.Opening.{opening};
ghost use Rattle.engine.specs.Models.{condition_of, rules_of, query_of, model, opened_with};

use crate::search::{Condition, Search};
use branches::Due;
use machine::machine::Machine;
use resolution::limits::MOST_TRIES;
use resolution::{Outcome, Refusal, Tally, Word};
use slips::faults::OpeningFault;
use stores::stores::Store;

// What a call says that makes no try.
fn at_once(word: Word) -> Outcome
    ensures { result ≡ record { word = word; tries = 0 } }
{
    Outcome { word, tries: 0 }
}

// The condition that a word leaves.
impl From<Word> for Condition {
    ghost from_gives = { λ word condition. condition_of condition ≡ condition_after word };

    fn from(word: Word) -> Condition {
        match word {
            Word::Answer => Condition::Standing,
            Word::Spent => Condition::Running,
            Word::Stopped(why) => Condition::Stopped(why),
            Word::NoMore => Condition::Ended,
        }
    }
}

impl Search {
    // Opens a search over a store's rules and a query; both are copied.
    pub fn open<S: Store>(store: &S, query: &[u8]) -> Result<Search, OpeningFault>
        ensures opened { seen opened_with result ≡ opening (S.Store.rules store.now) query.now }
        ensures start { IfOk result (λ s. model s ≡ opened (query_of s)) }
    {
        let machine = Machine::open(store, query)?;
        Ok(Search {
            machine,
            condition: Condition::Running,
            tries: 0,
            answers: 0,
        })
    }

    // A call came to its end with this word, after so many tries.
    fn settle(&mut self, word: Word, tries: u32)
        ensures machine { self.new.machine ≡ self.old.machine }
        ensures condition { condition_of self.new.condition ≡ condition_after word }
        ensures tries { self.new.tries ≡ held (self.old.tries + tries) }
        ensures answers { self.new.answers ≡ answers_after word self.old.answers }
    {
        self.condition = Condition::from(word);
        self.tries = self.tries.saturating_add(tries);
        if word == Word::Answer {
            self.answers = self.answers.saturating_add(1);
        }
    }

    // Goes on until a line ends the call; it may make so many tries. That rules and query stay is a clause of every method that
    // changes the search: no type says it of a part of a value.
    pub fn next(&mut self, allowance: u32) -> Result<Outcome, Refusal>
        ensures result { result ≡ (definition_next (rules_of self.old) allowance (model self.old)).result }
        ensures search { model self.new ≡ (definition_next (rules_of self.old) allowance (model self.old)).search }
        ensures rules { rules_of self.new ≡ rules_of self.old }
        ensures query { query_of self.new ≡ query_of self.old }
    {
        if allowance > MOST_TRIES {
            return Err(Refusal::Allowance);
        }
        let mut tries = 0;
        let word = 'lines: loop {
            match (self.condition, self.machine.due(), tries == allowance) {
                (Condition::Ended, _, _) => return Ok(at_once(Word::NoMore)),
                (Condition::Stopped(why), _, _) => return Ok(at_once(Word::Stopped(why))),
                (Condition::Standing, _, _) => {
                    if !self.machine.back() {
                        break 'lines Word::NoMore;
                    }
                    self.condition = Condition::Running;
                }
                (Condition::Running, Due::Nothing, _) => break 'lines Word::Answer,
                (Condition::Running, Due::NoRule, _) => {
                    if !self.machine.back() {
                        break 'lines Word::NoMore;
                    }
                }
                (Condition::Running, Due::Stop(_), true) => break 'lines Word::Spent,
                (Condition::Running, Due::Stop(why), false) => break 'lines Word::Stopped(why),
                (Condition::Running, Due::Rule, true) => break 'lines Word::Spent,
                (Condition::Running, Due::Rule, false) => {
                    self.machine.attempt();
                    tries += 1;
                }
            }
        };
        self.settle(word, tries);
        Ok(Outcome { word, tries })
    }

    // Goes back to where the search was opened.
    pub fn rewind(&mut self)
        ensures search { model self.new ≡ definition_rewind (query_of self.old) (model self.old) }
        ensures rules { rules_of self.new ≡ rules_of self.old }
        ensures query { query_of self.new ≡ query_of self.old }
    {
        self.machine.rewind();
        self.condition = Condition::Running;
        self.tries = 0;
        self.answers = 0;
    }

    // Tries and answers since opening or the last rewind, and the steps and cells in use.
    pub fn tally(&self) -> Tally
        ensures { result ≡ definition_tally (model self.now) }
    {
        Tally {
            tries: self.tries,
            answers: self.answers,
            steps: self.machine.steps(),
            cells: self.machine.cells(),
        }
    }
}

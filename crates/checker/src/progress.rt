// How far a slip has been checked, in tables of fixed size.
ghost use Rattle.std.specs.Prelude.{◌≡◌, ◌≤◌, List, OnOk};
ghost use Rattle.terms.specs.Terms.{Term};
ghost use Rattle.reading.specs.Views.{seen};
ghost use Rattle.slips.specs.Opening.{rules_in};
ghost use Rattle.comparing.specs.Parts.{step_chosen};
ghost use Rattle.comparing.specs.Stages.{Stage, Ready, Stepped};
ghost use Rattle.comparing.specs.Runs.{counted_by, steps_from, first_step, Begun};
ghost use Rattle.checker.specs.Texts.{sources};
ghost use Rattle.checker.specs.Progress.{tables, fresh};

use crate::cursors::Under;
use crate::limits::{FRAMES, HEAD, OPENING_SIZE, TERMS};
use crate::parts::{begin, close, open};
use crate::places::read_terms;
use crate::texts::Texts;
use arrayvec::ArrayVec;
use comparing::{Cursor, Source, StepStart};
use resolution::limits::MOST_STEPS;
use slips::faults::SlipFault;
use stores::stores::Store;

#[derive(Drop)]
pub(crate) struct Progress {
    // where the terms of the query's variables, and then those of each step, begin in the slip
    table: ArrayVec<usize, TERMS>,
    // the goals that remain, the last frame's first; each frame under its own terms
    frames: ArrayVec<Cursor, FRAMES>,
    // the next byte of the slip
    place: usize,
    // the steps completed
    pub(crate) steps: u16,
}

impl Progress {
    // Nothing is read yet. The tables are made where they stay: to move them costs as much as to clear them.
    pub(crate) fn new() -> Progress
        ensures { tables result ≡ fresh }
    {
        Progress {
            table: ArrayVec::new(),
            frames: ArrayVec::new(),
            place: 0,
            steps: 0,
        }
    }

    // Before the first step: the terms of the query's variables are read, and its goals are to be shown.
    pub(crate) fn start(&mut self, slip: &[u8], variables: u8) -> Result<(), SlipFault>
        requires few { variables ≤ 64 }
        requires fresh { tables self.old ≡ fresh }
        ensures place { seen (λ u. self.new.place) result ≡ first_step variables slip.now }
        ensures begun { OnOk result (Begun slip.now variables (tables self.new)) }
    {
        open(slip, variables)?;
        self.place = read_terms(slip, OPENING_SIZE, variables, &mut self.table)?;
        self.frames.push(Cursor {
            source: Source::Query,
            place: 0,
            first: 0,
            inside: None,
        });
        Ok(())
    }

    // The step that comes next has room, and its rule is there.
    fn choose<S: Store>(&self, texts: &Texts<S>) -> Result<StepStart, SlipFault>
        ensures { result ≡ step_chosen (rules_in (S.Store.rules texts.now.store.now)) texts.now.slip.now self.now.steps self.now.place }
    {
        let place = self.place;
        let step = begin(texts.slip, place)?;
        if self.steps >= MOST_STEPS {
            return Err(SlipFault::TooManySteps { place });
        }
        if !texts.has_rule(step.rule, step.count) {
            return Err(SlipFault::NoRule { place });
        }
        Ok(step)
    }

    // The step that comes next shows the goal in front, and what its rule asks for comes before the other goals.
    fn step<S: Store>(&mut self, texts: &Texts<S>, mut goal: Cursor) -> Result<(), SlipFault>
        requires { (g : Term) × (goals : List Term) × Ready (sources S.Store.rules texts.now) (tables self.old) goal g goals }
        ensures { (g : Term) (goals : List Term) → Ready (sources S.Store.rules texts.now) (tables self.old) goal g goals → Stepped (sources S.Store.rules texts.now) (tables self.old) g goals result (tables self.new) }
    {
        let place = self.place;
        let step = self.choose(texts)?;
        let mut head = Cursor {
            source: Source::Rule(step.rule),
            place: HEAD,
            first: self.table.len(),
            inside: None,
        };
        let next = read_terms(texts.slip, step.terms, step.count, &mut self.table)?;
        let under = Under {
            texts,
            table: self.table.as_slice(),
        };
        if !under.agree(&mut head, &mut goal) {
            return Err(SlipFault::OtherGoal { place });
        }
        self.frames.push(goal);
        self.frames.push(head);
        self.place = next;
        self.steps += 1;
        Ok(())
    }

    // Checks step by step what is left of the slip, to its end.
    pub(crate) fn run<S: Store>(&mut self, texts: &Texts<S>) -> Result<(), SlipFault>
        requires { (goals : List Term) × Stage (sources S.Store.rules texts.now) (tables self.old) goals }
        ensures { (goals : List Term) → Stage (sources S.Store.rules texts.now) (tables self.old) goals → counted_by self.new.steps result ≡ steps_from (sources S.Store.rules texts.now) (tables self.old) goals }
    {
        while let Some(goal) = texts.next_frame(&mut self.frames) {
            self.step(texts, goal)?;
        }
        close(texts.slip, self.place)
    }
}

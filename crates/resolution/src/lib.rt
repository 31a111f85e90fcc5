// What follows from rules, and the search for it. The definitions stand in specs/; the types below are
// shared by them and by the code that meets them, and each function carries a theorem in its contract.
#![tactic(auto)]

ghost use Rattle.std.specs.Prelude.{◌≡◌, Some};
ghost use Rattle.resolution.specs.Limits.{refusal_number};
ghost use Rattle.resolution.specs.Printed.{stop_text, word_text, refusal_text};
ghost use Rattle.resolution.specs.Examples.{Worked};
ghost use Rattle.resolution.specs.Laws.{OneByOne, Refuses, KeepsToAllowance, Splits, Sound, NoneMeansNone, InOrder, StepsFit, WithinLimits, EndedBare, Tallies};

use std::error::Error;
use std::fmt;

pub mod limits;

// Why a search stops for good.
#[derive(Clone, Copy, PartialEq, Eq, Debug)]
pub enum Stop {
    // the branch has as many steps as it may
    Deep,
    // the rule due has more variables than cells are left
    Cells,
}

// What a call of next says.
#[derive(Clone, Copy, PartialEq, Eq, Debug)]
pub enum Word {
    // no goal remains, and the answer stands
    Answer,
    // the call made as many tries as it was allowed
    Spent,
    // the search is stopped
    Stopped(Stop),
    // the search has ended: there is no more answer
    NoMore,
}

impl fmt::Display for Stop {
    ghost output = { λ s. Some (stop_text s) };

    fn fmt<W: fmt::Write>(&self, f: &mut fmt::Formatter<W>) -> fmt::Result {
        match self {
            Stop::Deep => f.write_str("deep"),
            Stop::Cells => f.write_str("cells"),
        }
    }
}

impl fmt::Display for Word {
    ghost output = { λ w. Some (word_text w) };

    fn fmt<W: fmt::Write>(&self, f: &mut fmt::Formatter<W>) -> fmt::Result {
        match self {
            Word::Answer => f.write_str("answer"),
            Word::Spent => f.write_str("spent"),
            Word::Stopped(stop) => stop.fmt(f),
            Word::NoMore => f.write_str("none"),
        }
    }
}

// The word of a call of next, and the tries made in it.
#[derive(Clone, Copy, PartialEq, Eq, Debug)]
pub struct Outcome {
    pub word: Word,
    pub tries: u32,
}

// Why a call is refused.
#[derive(Clone, Copy, PartialEq, Eq, Debug)]
pub enum Refusal {
    // the allowance is above its limit
    Allowance,
}

impl Refusal {
    pub fn number(&self) -> u8
        ensures { result ≡ refusal_number self.now }
    {
        match *self {
            Refusal::Allowance => 15,
        }
    }
}

impl fmt::Display for Refusal {
    ghost output = { λ e. Some (refusal_text e) };

    fn fmt<W: fmt::Write>(&self, f: &mut fmt::Formatter<W>) -> fmt::Result {
        write!(f, "{}", self.number())
    }
}

impl Error for Refusal {}

// Tries and answers since opening or the last rewind, and the steps and cells in use.
#[derive(Clone, Copy, PartialEq, Eq, Debug)]
pub struct Tally {
    pub tries: u32,
    pub answers: u32,
    pub steps: u16,
    pub cells: u16,
}

// The lines of a call are taken one after the other, from the top, until one ends the call.
pub fn one_by_one()
    ensures { OneByOne }
{}

// An allowance above its limit, and no other, is refused before all else and leaves the search as it was.
pub fn refuses()
    ensures { Refuses }
{}

// The tries of a call are at most its allowance, equal to it at spent, and below it where the search stops.
pub fn keeps_to_allowance()
    ensures { KeepsToAllowance }
{}

// Where an allowance is spent, a further one goes on as if both had been given at once.
pub fn splits()
    ensures { Splits }
{}

// Every ground replacement that an answer covers follows from the rules.
pub fn sound()
    ensures { Sound }
{}

// Whenever next says that there is no more answer, every ground replacement of the query's variables that follows
// is covered by an answer given since opening or the last rewind.
pub fn none_means_none()
    ensures { NoneMeansNone }
{}

// Answers come in dictionary order of their steps' rule numbers.
pub fn in_order()
    ensures { InOrder }
{}

// At every moment the head of each step, in present terms, equals the goal that it was tried on.
pub fn steps_fit()
    ensures { StepsFit }
{}

// Steps and cells in use never exceed their limits.
pub fn within_limits()
    ensures { WithinLimits }
{}

// An ended search has no step in use, and the cells of the query's variables only.
pub fn ended_bare()
    ensures { EndedBare }
{}

// The tally tells the tries and the answers of all calls since opening or the last rewind.
pub fn tallies()
    ensures { Tallies }
{}

// The worked examples compute to what is stated of them.
pub fn examples_work()
    ensures { Worked }
{}

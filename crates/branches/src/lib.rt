// The branch of steps and the goals that remain, as they stand in tables: what they mean, and what each move of the
// search does to them. The definitions stand in specs/ and the lemmas in proofs/; the types below are shared by them
// and by the code that keeps to them.
#![tactic(auto)]

use resolution::Stop;

// A row of goals: so many from a place of the text on, with the cells from `level` on. After them come the goals that
// remained behind the goal of a step; `above` is that step's number, or none where nothing more remains.
#[derive(Clone, Copy, PartialEq, Eq, Debug, Default)]
pub struct Goals {
    pub place: u16,
    pub level: u16,
    pub left: u8,
    pub above: Option<u16>,
}

// A rule was taken on the first of these goals. Its cells begin at `level`, and `mark` was the newest bound cell before it.
#[derive(Clone, Copy, PartialEq, Eq, Debug, Default)]
pub struct Step {
    pub rule: u16,
    pub goals: Goals,
    pub level: u16,
    pub mark: u16,
}

// Where a rule's head and its goals stand in the text, how many variables it declares, and how many goals it has.
#[derive(Clone, Copy, PartialEq, Eq, Debug, Default)]
pub struct Clause {
    pub head: u16,
    pub body: u16,
    pub variables: u8,
    pub goals: u8,
}

// What is due at a place of the search.
#[derive(Clone, Copy, PartialEq, Eq)]
pub enum Due {
    // no goal remains
    Nothing,
    // no rule is left for the first goal
    NoRule,
    // a rule is, but no try can be made
    Stop(Stop),
    // a rule is, and can be tried
    Rule,
}

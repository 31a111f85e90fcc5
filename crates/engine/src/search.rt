// A search and its condition.
use machine::machine::Machine;
use resolution::Stop;

// Whether the search goes on, has an answer standing, has ended, or was stopped for good.
#[derive(Clone, Copy, PartialEq, Eq)]
pub enum Condition {
    Running,
    Standing,
    Ended,
    Stopped(Stop),
}

// It borrows nothing: later changes of the store it was opened over do not reach it.
#[derive(Drop)]
pub struct Search {
    pub(crate) machine: Machine,
    pub(crate) condition: Condition,
    // since opening or the last rewind
    pub(crate) tries: u32,
    pub(crate) answers: u32,
}

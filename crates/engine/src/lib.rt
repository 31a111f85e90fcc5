// The search that goes on from where it stopped: open, next, rewind, tally; hold, with answer and slip; and lists of
// calls, with the promise over all of them.
#![tactic(auto)]

mod calls;
pub mod hands;
pub mod report;
pub mod runs;
pub mod search;
pub mod slots;

// Answers, slips, runs of calls on a search, and the checker: what they are in bytes, the refusals and faults that code
// returns, and the laws. The definitions stand in specs/.
#![tactic(auto)]

pub mod faults;
pub mod laws;

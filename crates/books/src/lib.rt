// Books as a whole: where their rules begin, and how a list of rules is written as one. The definitions stand in specs/.
#![tactic(auto)]

pub mod faults;
pub mod laws;

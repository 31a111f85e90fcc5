// The grammar of books, queries and rules: their commands, first bytes and limits, the questions that reading puts to
// them, the faults that it finds, and what reading gives. The definitions stand in specs/.
#![tactic(auto)]

pub mod bytes;
pub mod commands;
pub mod faults;
pub mod laws;
pub mod limits;

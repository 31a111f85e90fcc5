// A board over fixed tables: it asks for no memory, and its results are exact. The definitions stand in specs/.
#![tactic(auto)]

pub mod boards;
pub mod faults;
mod tables;

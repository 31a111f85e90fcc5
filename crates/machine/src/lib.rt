// The search over fixed tables: a text of bytes, cells for variables and a branch of steps. Terms are places in
// the text and are never copied.
#![tactic(auto)]

mod attempt;
mod branch;
mod cells;
pub mod facts;
mod guard;
mod instance;
pub mod machine;
mod moves;
mod numbering;
pub mod numbers;
mod opening;
mod question;
mod sink;
mod slip;
mod tables;
mod text;
mod unify;
mod view;
mod writing;

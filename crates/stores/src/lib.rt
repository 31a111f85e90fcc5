// Stores of rules: the interface, and the stores that belong to the base.
#![tactic(auto)]

mod begins;
pub mod lent;
pub mod piles;
pub mod rule_bytes;
pub mod rulebooks;
pub mod stores;
pub mod texts;
pub mod writing;

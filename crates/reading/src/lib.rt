// Reading of books, queries and rules from the caller's bytes, which stay as they are.
#![tactic(auto)]

pub mod books;
pub mod commands;
mod headers;
pub mod rules;

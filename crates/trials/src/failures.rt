// Why there is nothing to tell of a line's calls. What is printed of it is the failure's text, but for memory.
use grammar::faults::BookFault;
use slips::faults::OpeningFault;
use std::alloc::AllocError;
use thiserror::Error;

#[derive(Debug, Drop, Error)]
pub(crate) enum Failure {
    // the line is no case
    #[error("unknown")]
    Unknown,
    #[error("refused,{0}")]
    Book(#[from] BookFault),
    #[error("refused,{0}")]
    Opening(#[from] OpeningFault),
    #[error("{0}")]
    Memory(#[from] AllocError),
}

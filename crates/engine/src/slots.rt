// A list of calls in the caller's own slots.
use resolution::{Outcome, Refusal, Tally};
use slips::faults::WriteRefusal;

#[derive(Clone, Copy, PartialEq, Eq, Debug)]
pub enum Request {
    // with an allowance
    Next(u32),
    Rewind,
    Tally,
    Hold,
    // into the slot's buffer
    Answer,
    Slip,
}

#[derive(Clone, Copy)]
pub enum Reply {
    Next(Result<Outcome, Refusal>),
    Rewound,
    Tallied(Tally),
    Held(Result<(), WriteRefusal>),
    Wrote(Result<usize, WriteRefusal>),
}

// A call, the buffer that it may write to, and what it returned; nothing where it was not carried out.
#[derive(Drop)]
pub struct Slot {
    pub request: Request,
    pub buffer: Vec<u8>,
    pub reply: Option<Reply>,
}

// The lines that are printed.
use engine::slots::{Reply, Request, Slot};
use hexadecimal::encode;
use resolution::{Outcome, Refusal, Tally};
use slips::faults::WriteRefusal;
use std::alloc::{AllocError, Global};

fn next_line(heap: Global, returned: Result<Outcome, Refusal>) -> Result<String, AllocError> {
    match returned {
        Ok(Outcome { word, tries }) => format!(in heap; "next,{word},{tries}"),
        Err(refusal) => format!(in heap; "next,refused,{refusal}"),
    }
}

fn tally_line(heap: Global, tally: Tally) -> Result<String, AllocError> {
    let Tally {
        tries,
        answers,
        steps,
        cells,
    } = tally;
    format!(in heap; "tally,{tries},{answers},{steps},{cells}")
}

fn hold_line(heap: Global, returned: Result<(), WriteRefusal>) -> Result<String, AllocError> {
    match returned {
        Ok(()) => String::from_str(heap, "hold,ok"),
        Err(refusal) => format!(in heap; "hold,refused,{refusal}"),
    }
}

// What was written, with the whole buffer after the call.
fn written_line(
    heap: Global,
    name: &str,
    returned: Result<usize, WriteRefusal>,
    buffer: &[u8],
) -> Result<String, AllocError> {
    let digits = encode(heap, buffer)?;
    match returned {
        Ok(length) => format!(in heap; "{name},{length},{digits}"),
        Err(refusal) => format!(in heap; "{name},refused,{refusal},{digits}"),
    }
}

// What a call returned. The calls are a closed set.
pub(crate) fn reply_line(heap: Global, slot: &Slot) -> Result<String, AllocError> {
    match slot.reply {
        None => String::from_str(heap, "open"),
        Some(Reply::Next(returned)) => next_line(heap, returned),
        Some(Reply::Rewound) => String::from_str(heap, "rewind"),
        Some(Reply::Tallied(tally)) => tally_line(heap, tally),
        Some(Reply::Held(returned)) => hold_line(heap, returned),
        Some(Reply::Wrote(returned)) => {
            let name = match slot.request {
                Request::Slip => "slip",
                _ => "answer",
            };
            written_line(heap, name, returned, slot.buffer.as_slice())
        }
    }
}

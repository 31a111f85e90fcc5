// The calls that a line can ask for.
use engine::slots::{Request, Slot};
use std::alloc::{AllocError, Global};

// what fills a buffer before it is written to; `shelve` shows its buffers so too, and a library for one byte would be longer
const FILLER: u8 = 0xEE;

// A call, and how many bytes its buffer has.
#[derive(Clone, Copy)]
pub(crate) struct Call {
    request: Request,
    room: usize,
}

// The call of a line that has an operand: an allowance, or the room of a buffer. The calls are named by words, a closed set.
fn with_operand(line: &str) -> Option<Call> {
    let (name, operand) = line.split_once(' ')?;
    let request = match name {
        "next" => {
            let request = Request::Next(operand.parse().ok()?);
            return Some(Call { request, room: 0 });
        }
        "answer" => Request::Answer,
        "slip" => Request::Slip,
        _ => return None,
    };
    let room = operand.parse().ok()?;
    Some(Call { request, room })
}

// The call of a line; none where it is no call.
pub(crate) fn parse(line: &str) -> Option<Call> {
    let request = match line {
        "rewind" => Request::Rewind,
        "tally" => Request::Tally,
        "hold" => Request::Hold,
        _ => return with_operand(line),
    };
    Some(Call { request, room: 0 })
}

// The slot of a call, its buffer filled.
pub(crate) fn slot(heap: Global, call: Call) -> Result<Slot, AllocError> {
    Ok(Slot {
        request: call.request,
        buffer: vec![in heap; FILLER; call.room]?,
        reply: None,
    })
}

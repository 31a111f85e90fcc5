// The lines that are printed.
use crate::ops::Question;
use boards::boards::Board;
use hexadecimal::{decode, encode};
use notation::OrDash;
use std::alloc::{AllocError, Global};
use std::fmt;
use stores::stores::Store;
use stores::writing::write;

// what fills a buffer before it is written to; `replay` shows its buffers so too, and a library for one byte would be longer
const FILLER: u8 = 0xEE;

// Whether a change of the board was made.
fn done_line<E: fmt::Display + Drop>(
    heap: Global,
    call: &str,
    done: Result<(), E>,
) -> Result<String, AllocError> {
    match done {
        Ok(()) => format!(in heap; "{call},ok"),
        Err(fault) => format!(in heap; "{call},refused,{fault}"),
    }
}

pub(crate) fn add_line(
    heap: Global,
    board: &mut Board,
    digits: &str,
) -> Result<String, AllocError> {
    let Some(rule) = decode(heap, digits.as_bytes())? else {
        return String::from_str(heap, "unknown");
    };
    done_line(heap, "add", board.add(rule.as_slice()))
}

pub(crate) fn remove_line(
    heap: Global,
    board: &mut Board,
    rule: u16,
) -> Result<String, AllocError> {
    done_line(heap, "remove", board.remove(rule))
}

// What a store answers. The questions are a closed set.
pub(crate) fn answer_line<S: Store>(
    heap: Global,
    store: &S,
    question: Question,
) -> Result<String, AllocError> {
    match question {
        Question::Count => {
            let count = store.count();
            format!(in heap; "count,{count}")
        }
        Question::Size(rule) => {
            let size = OrDash(store.size(rule));
            format!(in heap; "size,{size}")
        }
        // in two digits, which `OrDash` would not keep
        Question::Byte(rule, at) => match store.byte(rule, at) {
            Some(byte) => format!(in heap; "byte,{byte:02X}"),
            None => String::from_str(heap, "byte,-"),
        },
        Question::Write(room) => write_line(heap, store, room),
    }
}

// Writes into a buffer of so many bytes, and shows all of it.
fn write_line<S: Store>(heap: Global, store: &S, room: usize) -> Result<String, AllocError> {
    let mut out = vec![in heap; FILLER; room]?;
    let result = write(store, out.as_mut_slice());
    let digits = encode(heap, out.as_slice())?;
    match result {
        Ok(length) => format!(in heap; "write,{length},{digits}"),
        Err(fault) => format!(in heap; "write,refused,{fault},{digits}"),
    }
}

// What comes of a case by the engine.
use crate::cases::Case;
use engine::search::Search;
use outcomes::slips::Slip;
use outcomes::{Fault, Outcome, Position};
use resolution::Word;
use resolution::limits::MOST_TRIES;
use slips::faults::WriteRefusal;
use std::alloc::{AllocError, Global};
use stores::rulebooks::{Image, RuleBook};

// more than the slip of any stored case has
const ROOM: usize = 32_768;

fn position(place: Option<usize>, layer: Option<u8>) -> Option<Position> {
    Some(Position {
        place: place?,
        layer: layer?,
    })
}

fn open(case: &Case) -> Result<Search, Fault> {
    let image = Image::new(case.book.as_slice());
    let book = RuleBook::open(&image).map_err(|fault| Fault {
        number: fault.number(),
        position: position(Some(fault.place()), Some(fault.layer())),
    })?;
    Search::open(&book, case.query.as_slice()).map_err(|fault| Fault {
        number: fault.number(),
        position: position(fault.place(), fault.layer()),
    })
}

// A call is refused.
fn refused(number: u8) -> Outcome {
    Outcome::Refused(Fault {
        number,
        position: None,
    })
}

fn write_slip(search: &Search, buffer: &mut [u8]) -> Result<usize, WriteRefusal> {
    search.hold()?.slip(buffer)
}

// The answer that stands, found after so many tries.
fn answer(heap: Global, search: &Search, tries: u32) -> Result<Outcome, AllocError> {
    let mut buffer = vec![in heap; 0; ROOM]?;
    match write_slip(search, buffer.as_mut_slice()) {
        Ok(length) => {
            buffer.truncate(length);
            let slip = Slip::new(buffer);
            Ok(Outcome::Answer { tries, slip })
        }
        Err(refusal) => Ok(refused(refusal.number())),
    }
}

// One call of next, with as many tries as a call can have.
fn call(heap: Global, search: &mut Search) -> Result<Outcome, AllocError> {
    let called = match search.next(MOST_TRIES) {
        Ok(called) => called,
        Err(refusal) => return Ok(refused(refusal.number())),
    };
    let tries = called.tries;
    match called.word {
        Word::Answer => answer(heap, search, tries),
        word => Ok(Outcome::Said { word, tries }),
    }
}

// Each call's outcome, up to the first that is no answer; at most one more than is stored.
pub(crate) fn outcomes_of(heap: Global, case: &Case) -> Result<Vec<Outcome>, AllocError> {
    let mut found = Vec::new(heap);
    let mut search = match open(case) {
        Ok(search) => search,
        Err(fault) => {
            found.push(Outcome::Refused(fault))?;
            return Ok(found);
        }
    };
    for _ in 0..=case.stored.len() {
        let outcome = call(heap, &mut search)?;
        let goes_on = matches!(&outcome, Outcome::Answer { .. });
        found.push(outcome)?;
        if !goes_on {
            break;
        }
    }
    Ok(found)
}

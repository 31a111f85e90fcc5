// A case with the outcomes that are stored for it, as a line has them: book, query and each outcome, with blanks between. Bytes
// are in hexadecimal.
use anyhow::{Context, Result};
use hexadecimal::decode;
use outcomes::slips::Slip;
use outcomes::{Fault, Outcome, Position};
use resolution::{Stop, Word};
use std::alloc::Global;

#[derive(Drop)]
pub(crate) struct Case {
    pub(crate) book: Vec<u8>,
    pub(crate) query: Vec<u8>,
    pub(crate) stored: Vec<Outcome>,
}

fn bytes(heap: Global, digits: &str) -> Result<Vec<u8>> {
    decode(heap, digits.as_bytes())?.context("letters that spell no bytes")
}

// The word of a search that has no more answer.
fn word(name: &str) -> Option<Word> {
    match name {
        "none" => Some(Word::NoMore),
        "spent" => Some(Word::Spent),
        "deep" => Some(Word::Stopped(Stop::Deep)),
        "cells" => Some(Word::Stopped(Stop::Cells)),
        _ => None,
    }
}

fn position(text: &str) -> Option<Position> {
    let (place, layer) = text.split_once(',')?;
    Some(Position {
        place: place.parse().ok()?,
        layer: layer.parse().ok()?,
    })
}

// A fault as number, place and layer; without a position, dashes stand for the last two.
fn fault(text: &str) -> Option<Fault> {
    let (number, rest) = text.split_once(',')?;
    Some(Fault {
        number: number.parse().ok()?,
        position: match rest {
            "-,-" => None,
            _ => Some(position(rest)?),
        },
    })
}

fn outcome(heap: Global, text: &str) -> Result<Outcome> {
    let (name, rest) = text.split_once(',').context("an outcome without a number")?;
    match name {
        "refused" => Ok(Outcome::Refused(fault(rest).context("no fault")?)),
        "answer" => {
            let (tries, slip) = rest.split_once(',').context("an answer without a slip")?;
            Ok(Outcome::Answer {
                tries: tries.parse()?,
                slip: Slip::new(bytes(heap, slip)?),
            })
        }
        _ => Ok(Outcome::Said {
            word: word(name).context("no word")?,
            tries: rest.parse()?,
        }),
    }
}

impl Case {
    // A book without bytes is a dash.
    pub(crate) fn parse(heap: Global, line: &str) -> Result<Case> {
        let mut words = line.split(' ');
        let book = match words.next().context("no book")? {
            "-" => Vec::new(heap),
            digits => bytes(heap, digits)?,
        };
        let query = bytes(heap, words.next().context("no query")?)?;
        let mut stored = Vec::new(heap);
        for text in words {
            stored.push(outcome(heap, text)?)?;
        }
        Ok(Case {
            book,
            query,
            stored,
        })
    }
}

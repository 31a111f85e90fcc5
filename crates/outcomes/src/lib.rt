// What comes of a case, which is a query put to a book: a list of outcomes; and where two such lists first differ.
#![tactic(auto)]

ghost use Rattle.std.specs.Prelude.{◌≡◌, ◌↔◌, IsNone, IfSome};
ghost use Rattle.outcomes.specs.Differences.{DifferFirst};

pub mod slips;

use crate::slips::Slip;
use resolution::Word;

// Where a fault of reading stands, and the layer that found it.
#[derive(Clone, Copy, PartialEq, Eq, Debug)]
pub struct Position {
    pub place: usize,
    pub layer: u8,
}

// Why there is no search, or no slip.
#[derive(Clone, Copy, PartialEq, Eq, Debug)]
pub struct Fault {
    pub number: u8,
    // a fault of reading has one
    pub position: Option<Position>,
}

// One outcome of a case. Tries are those of one call of next.
#[derive(PartialEq, Eq, Debug, Drop)]
pub enum Outcome {
    Refused(Fault),
    // an answer
    Answer { tries: u32, slip: Slip },
    // another word than answer
    Said { word: Word, tries: u32 },
}

// The first place at which two lists differ, none where they are equal. Where one of them goes on, its end is such a place too.
pub fn first_difference(found: &[Outcome], stored: &[Outcome]) -> Option<usize>
    ensures equal { IsNone result ↔ (found.now ≡ stored.now) }
    ensures first { IfSome result (DifferFirst found.now stored.now) }
{
    let shorter = found.len().min(stored.len());
    for place in 0..shorter {
        if found[place] != stored[place] {
            return Some(place);
        }
    }
    if found.len() == stored.len() {
        None
    } else {
        Some(shorter)
    }
}

// The rows of a listing.
ghost use Rattle.std.specs.Prelude.{◌≡◌, Some};
ghost use Rattle.listing.specs.Listings.{last};
ghost use Rattle.listing.specs.Printed.{spaced, row_text};

use crate::faults::Fault;
use machine::numbers::Numbers;
use resolution::{Outcome, Word};
use std::fmt;

#[derive(Drop)]
pub enum Row {
    // what a call said, and of an answer the rule numbers of its steps
    Told { outcome: Outcome, numbers: Numbers },
    Refused(Fault),
}

impl Row {
    // Whether no row comes after it.
    pub fn is_last(&self) -> bool
        ensures { result ≡ last self.now }
    {
        match self {
            Row::Told { outcome, .. } => match outcome.word {
                Word::Answer | Word::Spent => false,
                Word::Stopped(_) | Word::NoMore => true,
            },
            Row::Refused(_) => true,
        }
    }
}

// Numbers with a space between them.
#[derive(Clone, Copy)]
struct Spaced<'a>(&'a [u16]);

impl fmt::Display for Spaced<'_> {
    ghost output = { λ s. Some (spaced s.0.now) };

    fn fmt<W: fmt::Write>(&self, f: &mut fmt::Formatter<W>) -> fmt::Result {
        let Some((first, others)) = self.0.split_first() else {
            return Ok(());
        };
        write!(f, "{first}")?;
        for other in others {
            write!(f, " {other}")?;
        }
        Ok(())
    }
}

impl fmt::Display for Row {
    ghost output = { λ r. Some (row_text r) };

    fn fmt<W: fmt::Write>(&self, f: &mut fmt::Formatter<W>) -> fmt::Result {
        match self {
            Row::Told { outcome, numbers } => write!(
                f,
                "{},{},{}",
                outcome.word,
                outcome.tries,
                Spaced(numbers.as_slice())
            ),
            Row::Refused(fault) => write!(f, "refused,{fault}"),
        }
    }
}

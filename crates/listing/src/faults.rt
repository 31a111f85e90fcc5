// Why a listing ends with a refusal.
ghost use Rattle.std.specs.Prelude.{◌≡◌, Some};
ghost use Rattle.listing.specs.declared.faults.Fault.TheVariants.{Book as InBook, Opening as InOpening, Call as InCall, Writing as InWriting};
ghost use Rattle.listing.specs.Refusals.{fault_number, fault_place, fault_text};

use grammar::faults::BookFault;
use resolution::Refusal;
use slips::faults::{OpeningFault, WriteRefusal};
use std::error::Error;
use std::fmt;

#[derive(Clone, Copy, PartialEq, Eq, Debug)]
pub enum Fault {
    // the book is refused
    Book(BookFault),
    // no search is opened for the query
    Opening(OpeningFault),
    // a call of next is refused
    Call(Refusal),
    // a slip is not written
    Writing(WriteRefusal),
}

impl From<BookFault> for Fault {
    ghost from_gives = { λ e r. r ≡ InBook e };

    fn from(e: BookFault) -> Fault {
        Fault::Book(e)
    }
}

impl From<OpeningFault> for Fault {
    ghost from_gives = { λ e r. r ≡ InOpening e };

    fn from(e: OpeningFault) -> Fault {
        Fault::Opening(e)
    }
}

impl From<Refusal> for Fault {
    ghost from_gives = { λ e r. r ≡ InCall e };

    fn from(e: Refusal) -> Fault {
        Fault::Call(e)
    }
}

impl From<WriteRefusal> for Fault {
    ghost from_gives = { λ e r. r ≡ InWriting e };

    fn from(e: WriteRefusal) -> Fault {
        Fault::Writing(e)
    }
}

impl Fault {
    pub fn number(&self) -> u8
        ensures { result ≡ fault_number self.now }
    {
        match *self {
            Fault::Book(fault) => fault.number(),
            Fault::Opening(fault) => fault.number(),
            Fault::Call(refusal) => refusal.number(),
            Fault::Writing(refusal) => refusal.number(),
        }
    }

    // Its place in the book or in the query; 0 where there is none.
    pub fn place(&self) -> usize
        ensures { result ≡ fault_place self.now }
    {
        match *self {
            Fault::Book(fault) => fault.place(),
            Fault::Opening(fault) => fault.place().unwrap_or(0),
            Fault::Call(_) | Fault::Writing(_) => 0,
        }
    }
}

impl fmt::Display for Fault {
    ghost output = { λ e. Some (fault_text e) };

    fn fmt<W: fmt::Write>(&self, f: &mut fmt::Formatter<W>) -> fmt::Result {
        write!(f, "{},{}", self.number(), self.place())
    }
}

impl Error for Fault {}

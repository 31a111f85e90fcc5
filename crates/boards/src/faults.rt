// Why rules are not put up or not taken down.
ghost use Rattle.std.specs.Prelude.{◌≡◌, Some};
ghost use Rattle.boards.specs.declared.faults.AddFault.TheVariants.{Rule};
ghost use Rattle.boards.specs.Changes.{add_number, add_place, add_layer, remove_number};
ghost use Rattle.boards.specs.Printed.{add_text, remove_text};

use grammar::faults::SingleFault;
use std::fmt;

// Why a rule is not put up on a board.
#[derive(Clone, Copy, PartialEq, Eq, Debug)]
pub enum AddFault {
    // it is no fit rule
    Rule(SingleFault),
    // the board has as many rules as it may
    Full,
    // the board would have more bytes than it may
    Large,
}

// Why a rule is not taken down from a board.
#[derive(Clone, Copy, PartialEq, Eq, Debug)]
pub enum RemoveFault {
    // there is no rule with this number
    Missing,
}

impl From<SingleFault> for AddFault {
    ghost from_gives = { λ e r. r ≡ Rule e };

    fn from(e: SingleFault) -> AddFault {
        AddFault::Rule(e)
    }
}

// As in the faults of reading, number, place and layer have a match each: what they share is one line of each.
impl AddFault {
    pub fn number(&self) -> u8
        ensures { result ≡ add_number self.now }
    {
        match *self {
            AddFault::Rule(fault) => fault.number(),
            AddFault::Full => 24,
            AddFault::Large => 25,
        }
    }

    pub fn place(&self) -> Option<usize>
        ensures { result ≡ add_place self.now }
    {
        match *self {
            AddFault::Rule(fault) => Some(fault.place()),
            AddFault::Full | AddFault::Large => None,
        }
    }

    pub fn layer(&self) -> Option<u8>
        ensures { result ≡ add_layer self.now }
    {
        match *self {
            AddFault::Rule(fault) => Some(fault.layer()),
            AddFault::Full | AddFault::Large => None,
        }
    }
}

impl RemoveFault {
    pub fn number(&self) -> u8
        ensures { result ≡ remove_number self.now }
    {
        match *self {
            RemoveFault::Missing => 26,
        }
    }
}

// Number, place and layer, with a dash for each that there is not.
impl fmt::Display for AddFault {
    ghost output = { λ e. Some (add_text e) };

    fn fmt<W: fmt::Write>(&self, f: &mut fmt::Formatter<W>) -> fmt::Result {
        match *self {
            AddFault::Rule(fault) => fault.fmt(f),
            AddFault::Full | AddFault::Large => write!(f, "{},-,-", self.number()),
        }
    }
}

impl fmt::Display for RemoveFault {
    ghost output = { λ e. Some (remove_text e) };

    fn fmt<W: fmt::Write>(&self, f: &mut fmt::Formatter<W>) -> fmt::Result {
        let number = self.number();
        write!(f, "{number},-,-")
    }
}

// Why a search is not opened, an answer not written, a slip not passed. specs/ has the numbers.
ghost use Rattle.std.specs.Prelude.{◌≡◌, Some};
ghost use Rattle.grammar.specs.declared.faults.RuleFault.TheVariants.{Command};
ghost use Rattle.slips.specs.declared.faults.OpeningFault.TheVariants.{InQuery as Unopened};
ghost use Rattle.slips.specs.declared.faults.SlipFault.TheVariants.{Reading};
ghost use Rattle.slips.specs.declared.faults.CheckFault.TheVariants.{InQuery as Unchecked};
ghost use Rattle.slips.specs.Refusals.{opening_number, opening_place, opening_layer, write_number, slip_number, slip_place, slip_layer, check_number, check_place, check_layer, check_steps, opening_text, write_text, slip_text, check_text};

use grammar::faults::{CommandFault, RuleFault, SingleFault};
use std::error::Error;
use std::fmt;

// The layer of slips.
const SLIPS: u8 = 4;

// Why a search is not opened.
#[derive(Clone, Copy, PartialEq, Eq, Debug)]
pub enum OpeningFault {
    InQuery(SingleFault),
    // more rules than a search may have
    TooManyRules,
    // more bytes of rules and query together than a search may have
    TooManyBytes,
}

// Why an answer is not handed out or not written.
#[derive(Clone, Copy, PartialEq, Eq, Debug)]
pub enum WriteRefusal {
    // no answer stands
    NoAnswer,
    // the buffer is too short
    NoRoom,
}

// A fault in a slip.
#[derive(Clone, Copy, PartialEq, Eq, Debug)]
pub enum SlipFault {
    // in a term, or in the operands of a step
    Reading(RuleFault),
    // it does not open as a slip for the query
    Opening,
    // a goal remains, and no step begins here
    NoStep { place: usize },
    // as many steps as a slip may have were before this one
    TooManySteps { place: usize },
    // there is no such rule
    NoRule { place: usize },
    // the step's head is another term than the first goal
    OtherGoal { place: usize },
    // no goal remains, and the slip does not end here
    NoEnd { place: usize },
}

// Why the checker does not pass a slip.
#[derive(Clone, Copy, PartialEq, Eq, Debug)]
pub enum CheckFault {
    InQuery(SingleFault),
    // with the number of steps completed before it
    InSlip { fault: SlipFault, steps: u16 },
}

impl From<SingleFault> for OpeningFault {
    ghost from_gives = { λ e r. r ≡ Unopened e };

    fn from(e: SingleFault) -> OpeningFault {
        OpeningFault::InQuery(e)
    }
}

impl From<RuleFault> for SlipFault {
    ghost from_gives = { λ e r. r ≡ Reading e };

    fn from(e: RuleFault) -> SlipFault {
        SlipFault::Reading(e)
    }
}

impl From<CommandFault> for SlipFault {
    ghost from_gives = { λ e r. r ≡ Reading (Command e) };

    fn from(e: CommandFault) -> SlipFault {
        SlipFault::Reading(RuleFault::Command(e))
    }
}

impl From<SingleFault> for CheckFault {
    ghost from_gives = { λ e r. r ≡ Unchecked e };

    fn from(e: SingleFault) -> CheckFault {
        CheckFault::InQuery(e)
    }
}

// As in the faults of reading, number, place and layer have a match each: under one trait the matches would be the same.
impl OpeningFault {
    pub fn number(&self) -> u8
        ensures { result ≡ opening_number self.now }
    {
        match *self {
            OpeningFault::InQuery(fault) => fault.number(),
            OpeningFault::TooManyRules => 13,
            OpeningFault::TooManyBytes => 14,
        }
    }

    // Only a query's fault has a place and a layer.
    pub fn place(&self) -> Option<usize>
        ensures { result ≡ opening_place self.now }
    {
        match *self {
            OpeningFault::InQuery(fault) => Some(fault.place()),
            OpeningFault::TooManyRules | OpeningFault::TooManyBytes => None,
        }
    }

    pub fn layer(&self) -> Option<u8>
        ensures { result ≡ opening_layer self.now }
    {
        match *self {
            OpeningFault::InQuery(fault) => Some(fault.layer()),
            OpeningFault::TooManyRules | OpeningFault::TooManyBytes => None,
        }
    }
}

impl fmt::Display for OpeningFault {
    ghost output = { λ e. Some (opening_text e) };

    fn fmt<W: fmt::Write>(&self, f: &mut fmt::Formatter<W>) -> fmt::Result {
        match self {
            OpeningFault::InQuery(fault) => write!(f, "{fault}"),
            OpeningFault::TooManyRules | OpeningFault::TooManyBytes => {
                write!(f, "{},-,-", self.number())
            }
        }
    }
}

impl Error for OpeningFault {}

impl WriteRefusal {
    pub fn number(&self) -> u8
        ensures { result ≡ write_number self.now }
    {
        match *self {
            WriteRefusal::NoAnswer => 16,
            WriteRefusal::NoRoom => 17,
        }
    }
}

impl fmt::Display for WriteRefusal {
    ghost output = { λ e. Some (write_text e) };

    fn fmt<W: fmt::Write>(&self, f: &mut fmt::Formatter<W>) -> fmt::Result {
        write!(f, "{}", self.number())
    }
}

impl Error for WriteRefusal {}

impl SlipFault {
    pub fn number(&self) -> u8
        ensures { result ≡ slip_number self.now }
    {
        match *self {
            SlipFault::Reading(fault) => fault.number(),
            SlipFault::Opening => 18,
            SlipFault::NoStep { .. } => 19,
            SlipFault::TooManySteps { .. } => 20,
            SlipFault::NoRule { .. } => 21,
            SlipFault::OtherGoal { .. } => 22,
            SlipFault::NoEnd { .. } => 23,
        }
    }

    pub fn place(&self) -> usize
        ensures { result ≡ slip_place self.now }
    {
        match *self {
            SlipFault::Reading(fault) => fault.place(),
            SlipFault::Opening => 0,
            SlipFault::NoStep { place }
            | SlipFault::TooManySteps { place }
            | SlipFault::NoRule { place }
            | SlipFault::OtherGoal { place }
            | SlipFault::NoEnd { place } => place,
        }
    }

    pub fn layer(&self) -> u8
        ensures { result ≡ slip_layer self.now }
    {
        match *self {
            SlipFault::Reading(fault) => fault.layer(),
            SlipFault::Opening
            | SlipFault::NoStep { .. }
            | SlipFault::TooManySteps { .. }
            | SlipFault::NoRule { .. }
            | SlipFault::OtherGoal { .. }
            | SlipFault::NoEnd { .. } => SLIPS,
        }
    }
}

impl fmt::Display for SlipFault {
    ghost output = { λ e. Some (slip_text e) };

    fn fmt<W: fmt::Write>(&self, f: &mut fmt::Formatter<W>) -> fmt::Result {
        write!(f, "{},{},{}", self.number(), self.place(), self.layer())
    }
}

impl Error for SlipFault {}

impl CheckFault {
    pub fn number(&self) -> u8
        ensures { result ≡ check_number self.now }
    {
        match *self {
            CheckFault::InQuery(fault) => fault.number(),
            CheckFault::InSlip { fault, .. } => fault.number(),
        }
    }

    pub fn place(&self) -> usize
        ensures { result ≡ check_place self.now }
    {
        match *self {
            CheckFault::InQuery(fault) => fault.place(),
            CheckFault::InSlip { fault, .. } => fault.place(),
        }
    }

    pub fn layer(&self) -> u8
        ensures { result ≡ check_layer self.now }
    {
        match *self {
            CheckFault::InQuery(fault) => fault.layer(),
            CheckFault::InSlip { fault, .. } => fault.layer(),
        }
    }

    // The steps completed before a fault in the slip.
    pub fn steps(&self) -> Option<u16>
        ensures { result ≡ check_steps self.now }
    {
        match *self {
            CheckFault::InQuery(_) => None,
            CheckFault::InSlip { steps, .. } => Some(steps),
        }
    }
}

impl fmt::Display for CheckFault {
    ghost output = { λ e. Some (check_text e) };

    fn fmt<W: fmt::Write>(&self, f: &mut fmt::Formatter<W>) -> fmt::Result {
        match self {
            CheckFault::InQuery(fault) => write!(f, "{fault}"),
            CheckFault::InSlip { fault, .. } => write!(f, "{fault}"),
        }
    }
}

impl Error for CheckFault {}

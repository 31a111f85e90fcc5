// The faults that reading finds, in three layers. Each layer wraps the faults of the one below and adds its own.
ghost use Rattle.std.specs.Prelude.{◌≡◌, Some};
ghost use Rattle.std.specs.Fmt.{DisplaysOnOk};
ghost use Rattle.grammar.specs.declared.faults.RuleFault.TheVariants.{Command};
ghost use Rattle.grammar.specs.declared.faults.SingleFault.TheVariants.{Inside};
ghost use Rattle.grammar.specs.declared.faults.BookFault.TheVariants.{World};
ghost use Rattle.grammar.specs.Refusals.{command_number, command_place, command_layer, rule_number, rule_place, rule_layer, single_number, single_place, single_layer, book_number, book_place, book_layer, book_rule, fault_text};

use std::error::Error;
use std::fmt;

// The layers: commands, rules and queries, the whole.
const COMMANDS: u8 = 1;

const RULES: u8 = 2;

const WHOLE: u8 = 3;

// The layer of commands.
#[derive(Clone, Copy, PartialEq, Eq, Debug)]
pub enum CommandFault {
    // the command's operands do not lie inside the frame
    Operands { place: usize },
    // the byte begins no term
    NoTerm { place: usize },
}

// The layer of rules and queries.
#[derive(Clone, Copy, PartialEq, Eq, Debug)]
pub enum RuleFault {
    Command(CommandFault),
    // more variables than a rule may declare
    Variables { place: usize },
    // more goals than a rule may have
    Goals { place: usize },
    // a length that is too large, or larger than the bytes left
    Length { place: usize },
    // the frame ends where a term must begin
    TermMissing { place: usize },
    // a variable that is not declared
    Undeclared { place: usize },
    // the length goes on after the last term
    LengthLeft { place: usize },
}

// The layer of the whole, for a query or a single rule.
#[derive(Clone, Copy, PartialEq, Eq, Debug)]
pub enum SingleFault {
    Inside(RuleFault),
    // it does not begin with its command
    Start { place: usize },
    // the bytes go on after it
    BytesLeft { place: usize },
}

// The layer of the whole, for a book.
#[derive(Clone, Copy, PartialEq, Eq, Debug)]
pub enum BookFault {
    // in the rule with this number
    Rule { number: u16, fault: RuleFault },
    // in a world command
    World(CommandFault),
    // more bytes than a book may have
    TooLong,
    // neither a rule nor a world begins here
    NoItem { place: usize },
    // as many rules as a book may have were read before this one
    TooManyRules { place: usize, number: u16 },
}

impl From<CommandFault> for RuleFault {
    ghost from_gives = { λ e r. r ≡ Command e };

    fn from(e: CommandFault) -> RuleFault {
        RuleFault::Command(e)
    }
}

impl From<CommandFault> for SingleFault {
    ghost from_gives = { λ e r. r ≡ Inside (Command e) };

    fn from(e: CommandFault) -> SingleFault {
        SingleFault::Inside(RuleFault::Command(e))
    }
}

impl From<RuleFault> for SingleFault {
    ghost from_gives = { λ e r. r ≡ Inside e };

    fn from(e: RuleFault) -> SingleFault {
        SingleFault::Inside(e)
    }
}

// A command of a book outside its rules is a world.
impl From<CommandFault> for BookFault {
    ghost from_gives = { λ e r. r ≡ World e };

    fn from(e: CommandFault) -> BookFault {
        BookFault::World(e)
    }
}

// Writes a fault's number, place and layer.
fn write_fault<W: fmt::Write>(
    f: &mut fmt::Formatter<W>,
    number: u8,
    place: usize,
    layer: u8,
) -> fmt::Result
    ensures { DisplaysOnOk W.write_str_gives f.old result (Some (fault_text number place layer)) f.new }
{
    write!(f, "{number},{place},{layer}")
}

// Each fault tells its number, its place and its layer by a match of its own: under a common trait the matches would be the
// same. Display is given to each fault alone, since it cannot be given to every type that has a trait of ours.
impl CommandFault {
    pub fn number(&self) -> u8
        ensures { result ≡ command_number self.now }
    {
        match *self {
            CommandFault::Operands { .. } => 3,
            CommandFault::NoTerm { .. } => 9,
        }
    }

    pub fn place(&self) -> usize
        ensures { result ≡ command_place self.now }
    {
        match *self {
            CommandFault::Operands { place } | CommandFault::NoTerm { place } => place,
        }
    }

    pub fn layer(&self) -> u8
        ensures { result ≡ command_layer self.now }
    {
        match *self {
            CommandFault::Operands { .. } | CommandFault::NoTerm { .. } => COMMANDS,
        }
    }
}

impl fmt::Display for CommandFault {
    ghost output = { λ e. Some (fault_text (command_number e) (command_place e) (command_layer e)) };

    fn fmt<W: fmt::Write>(&self, f: &mut fmt::Formatter<W>) -> fmt::Result {
        write_fault(f, self.number(), self.place(), self.layer())
    }
}

impl Error for CommandFault {}

impl RuleFault {
    pub fn number(&self) -> u8
        ensures { result ≡ rule_number self.now }
    {
        match *self {
            RuleFault::Command(fault) => fault.number(),
            RuleFault::Variables { .. } => 5,
            RuleFault::Goals { .. } => 6,
            RuleFault::Length { .. } => 7,
            RuleFault::TermMissing { .. } => 8,
            RuleFault::Undeclared { .. } => 10,
            RuleFault::LengthLeft { .. } => 11,
        }
    }

    pub fn place(&self) -> usize
        ensures { result ≡ rule_place self.now }
    {
        match *self {
            RuleFault::Command(fault) => fault.place(),
            RuleFault::Variables { place }
            | RuleFault::Goals { place }
            | RuleFault::Length { place }
            | RuleFault::TermMissing { place }
            | RuleFault::Undeclared { place }
            | RuleFault::LengthLeft { place } => place,
        }
    }

    pub fn layer(&self) -> u8
        ensures { result ≡ rule_layer self.now }
    {
        match *self {
            RuleFault::Command(fault) => fault.layer(),
            RuleFault::Variables { .. }
            | RuleFault::Goals { .. }
            | RuleFault::Length { .. }
            | RuleFault::TermMissing { .. }
            | RuleFault::Undeclared { .. }
            | RuleFault::LengthLeft { .. } => RULES,
        }
    }
}

impl fmt::Display for RuleFault {
    ghost output = { λ e. Some (fault_text (rule_number e) (rule_place e) (rule_layer e)) };

    fn fmt<W: fmt::Write>(&self, f: &mut fmt::Formatter<W>) -> fmt::Result {
        write_fault(f, self.number(), self.place(), self.layer())
    }
}

impl Error for RuleFault {}

impl SingleFault {
    pub fn number(&self) -> u8
        ensures { result ≡ single_number self.now }
    {
        match *self {
            SingleFault::Inside(fault) => fault.number(),
            SingleFault::Start { .. } => 2,
            SingleFault::BytesLeft { .. } => 12,
        }
    }

    pub fn place(&self) -> usize
        ensures { result ≡ single_place self.now }
    {
        match *self {
            SingleFault::Inside(fault) => fault.place(),
            SingleFault::Start { place } | SingleFault::BytesLeft { place } => place,
        }
    }

    pub fn layer(&self) -> u8
        ensures { result ≡ single_layer self.now }
    {
        match *self {
            SingleFault::Inside(fault) => fault.layer(),
            SingleFault::Start { .. } | SingleFault::BytesLeft { .. } => WHOLE,
        }
    }
}

impl fmt::Display for SingleFault {
    ghost output = { λ e. Some (fault_text (single_number e) (single_place e) (single_layer e)) };

    fn fmt<W: fmt::Write>(&self, f: &mut fmt::Formatter<W>) -> fmt::Result {
        write_fault(f, self.number(), self.place(), self.layer())
    }
}

impl Error for SingleFault {}

impl BookFault {
    pub fn number(&self) -> u8
        ensures { result ≡ book_number self.now }
    {
        match *self {
            BookFault::Rule { fault, .. } => fault.number(),
            BookFault::World(fault) => fault.number(),
            BookFault::TooLong => 1,
            BookFault::NoItem { .. } => 2,
            BookFault::TooManyRules { .. } => 4,
        }
    }

    pub fn place(&self) -> usize
        ensures { result ≡ book_place self.now }
    {
        match *self {
            BookFault::Rule { fault, .. } => fault.place(),
            BookFault::World(fault) => fault.place(),
            BookFault::TooLong => 0,
            BookFault::NoItem { place } | BookFault::TooManyRules { place, .. } => place,
        }
    }

    pub fn layer(&self) -> u8
        ensures { result ≡ book_layer self.now }
    {
        match *self {
            BookFault::Rule { fault, .. } => fault.layer(),
            BookFault::World(fault) => fault.layer(),
            BookFault::TooLong | BookFault::NoItem { .. } | BookFault::TooManyRules { .. } => WHOLE,
        }
    }

    // The number of the rule in which the fault was found.
    pub fn rule(&self) -> Option<u16>
        ensures { result ≡ book_rule self.now }
    {
        match *self {
            BookFault::Rule { number, .. } | BookFault::TooManyRules { number, .. } => Some(number),
            BookFault::World(_) | BookFault::TooLong | BookFault::NoItem { .. } => None,
        }
    }
}

impl fmt::Display for BookFault {
    ghost output = { λ e. Some (fault_text (book_number e) (book_place e) (book_layer e)) };

    fn fmt<W: fmt::Write>(&self, f: &mut fmt::Formatter<W>) -> fmt::Result {
        write_fault(f, self.number(), self.place(), self.layer())
    }
}

impl Error for BookFault {}

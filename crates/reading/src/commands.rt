// The reader of commands.
ghost use Rattle.std.specs.Prelude.{◌≡◌, ◌+◌, ◌*◌, ◌^◌, ◌<◌, length, drop};
ghost use Rattle.grammar.specs.TermCommands.{command as grammar_command, commands, terms as grammar_terms};
ghost use Rattle.reading.specs.Taking.{one_byte, two_bytes, first_command, size, taken_size, left, Passed, Went, over};

use grammar::bytes::{ATOM, PAIR, UNKNOWN, VARIABLE};
use grammar::commands::Command;
use grammar::faults::{CommandFault, RuleFault};
use terms::Form;

// What is left of a frame, and the place of its first byte in all the bytes.
#[derive(Drop)]
pub struct Reader<'a> {
    pub(crate) bytes: &'a [u8],
    pub(crate) place: usize,
    ghost counted: { place + length bytes.now < 2 ^ 64 },
}

// An operand of one byte, of the command at `place`.
pub(crate) fn one_byte(operands: &[u8], place: usize) -> Result<u8, CommandFault>
    ensures { result ≡ one_byte place operands.now }
{
    operands
        .first()
        .copied()
        .ok_or(CommandFault::Operands { place })
}

// An operand of two bytes, the high one first.
fn two_bytes(operands: &[u8], place: usize) -> Result<u16, CommandFault>
    ensures { result ≡ two_bytes place operands.now }
{
    operands
        .first_chunk()
        .copied()
        .map(u16::from_be_bytes)
        .ok_or(CommandFault::Operands { place })
}

// The command at `place` whose first byte is `first`, with the bytes of the frame after it.
fn command_of(first: u8, operands: &[u8], place: usize, form: Form) -> Result<Command, CommandFault>
    ensures { result ≡ grammar_command form place first operands.now }
{
    match (first, form) {
        (ATOM, _) => two_bytes(operands, place).map(Command::Atom),
        (PAIR, _) => Ok(Command::Pair),
        (VARIABLE, Form::Rules) => one_byte(operands, place).map(u16::from).map(Command::Var),
        (UNKNOWN, Form::Slips) => two_bytes(operands, place).map(Command::Var),
        _ => Err(CommandFault::NoTerm { place }),
    }
}

// How many bytes a command takes.
pub fn command_size(command: Command, form: Form) -> u16
    ensures { result ≡ size form command }
{
    match (command, form) {
        (Command::Pair, _) => 1,
        (Command::Var(_), Form::Rules) => 2,
        (Command::Var(_), Form::Slips) | (Command::Atom(_), _) => 3,
    }
}

impl<'a> Reader<'a> {
    pub fn new(bytes: &'a [u8]) -> Reader<'a>
        ensures bytes { result.bytes.now ≡ bytes.now }
        ensures place { result.place ≡ 0 }
    {
        Reader { bytes, place: 0 }
    }

    // A reader of what stands from `place` on, the whole of `bytes` being the frame; at the end where they are shorter.
    pub fn from_place(bytes: &'a [u8], place: usize) -> Reader<'a>
        ensures bytes { result.bytes.now ≡ drop place bytes.now }
        ensures place { result.place ≡ place }
    {
        Reader {
            bytes: bytes.get(place..).unwrap_or(&[]),
            place,
        }
    }

    // The place of the next command.
    pub fn place(&self) -> usize
        ensures { result ≡ self.now.place }
    {
        self.place
    }

    // Takes the term command that stands next, or nothing at the end of the frame. A fault takes nothing.
    pub fn command(&mut self, form: Form) -> Result<Option<Command>, CommandFault>
        ensures value { result ≡ first_command form self.old.place self.old.bytes.now }
        ensures bytes { self.new.bytes.now ≡ drop (taken_size form result) self.old.bytes.now }
        ensures place { self.new.place ≡ self.old.place + taken_size form result }
    {
        let [first, operands @ ..] = self.bytes else {
            return Ok(None);
        };
        let command = command_of(*first, operands, self.place, form)?;
        let size = usize::from(command_size(command, form));
        *self = Reader {
            bytes: &self.bytes[size..],
            place: self.place + size,
        };
        Ok(Some(command))
    }

    // Takes as many terms as are due, over so many variables.
    pub(crate) fn terms(&mut self, form: Form, variables: u8, due: u8) -> Result<(), RuleFault>
        ensures value { Passed (left (grammar_terms variables due (commands form self.old.place self.old.bytes.now))) result (commands form self.new.place self.new.bytes.now) }
        ensures went { Went self.old.place self.old.bytes.now self.new.place self.new.bytes.now }
    {
        let mut due = usize::from(due);
        while due > 0 {
            let place = self.place;
            let next = self.command(form)?;
            let command = next.ok_or(RuleFault::TermMissing { place })?;
            match command {
                Command::Atom(_) => due -= 1,
                Command::Var(number) => {
                    if number >= u16::from(variables) {
                        return Err(RuleFault::Undeclared { place });
                    }
                    due -= 1;
                }
                Command::Pair => due += 1,
            }
        }
        Ok(())
    }

    // Nothing of the frame is left.
    pub(crate) fn finish(&self) -> Result<(), RuleFault>
        ensures { result ≡ over self.now.place self.now.bytes.now }
    {
        if self.bytes.is_empty() {
            Ok(())
        } else {
            Err(RuleFault::LengthLeft { place: self.place })
        }
    }
}

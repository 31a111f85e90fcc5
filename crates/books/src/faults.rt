// Why rules are not written as a book.
ghost use Rattle.std.specs.Prelude.{◌≡◌, Some};
ghost use Rattle.books.specs.Writing.{write_number, write_text};

use std::error::Error;
use std::fmt;

#[derive(Clone, Copy, PartialEq, Eq, Debug)]
pub enum WriteFault {
    // more rules than a book may have
    Rules,
    // more bytes than a book may have
    Bytes,
    // the buffer is too short
    Room,
}

impl WriteFault {
    pub fn number(&self) -> u8
        ensures { result ≡ write_number self.now }
    {
        match *self {
            WriteFault::Rules => 13,
            WriteFault::Bytes => 14,
            WriteFault::Room => 17,
        }
    }
}

impl fmt::Display for WriteFault {
    ghost output = { λ e. Some (write_text e) };

    fn fmt<W: fmt::Write>(&self, f: &mut fmt::Formatter<W>) -> fmt::Result {
        write!(f, "{}", self.number())
    }
}

impl Error for WriteFault {}

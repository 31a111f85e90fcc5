// Taking bytes: they are counted first, and then written.
ghost use Rattle.std.specs.Prelude.{◌≡◌, ℕ, ◌<◌, ◌≤◌, List, [], ◌∷◌, length};
ghost use Rattle.terms.specs.declared.Form.TheVariants.{Rules, Slips};
ghost use Rattle.terms.specs.Terms.{var, atom};
ghost use Rattle.terms.specs.Bytes.{two, encoding};
ghost use Rattle.machine.specs.Sinks.{Puts, Passed, fitting, written};

use grammar::bytes::{ATOM, UNKNOWN, VARIABLE};

// The buffer has no room for the bytes.
#[derive(Clone, Copy, PartialEq, Eq, Debug)]
pub(crate) struct NoRoom;

// What takes bytes: it counts them, and writes them where it is told to. Counting needs the buffer too, for its length, so
// that two kinds of sink would be no plainer than the flag.
#[derive(Drop)]
pub(crate) struct Sink<'a> {
    pub(crate) buffer: &'a mut [u8],
    pub(crate) count: usize,
    pub(crate) writing: bool,
}

impl Sink<'_> {
    // Takes a byte, where the buffer has room for it.
    pub(crate) fn put(&mut self, byte: u8) -> Result<(), NoRoom>
        ensures { Puts self.old self.new (byte ∷ []) result }
    {
        if self.count >= self.buffer.len() {
            return Err(NoRoom);
        }
        if self.writing {
            self.buffer[self.count] = byte;
        }
        self.count += 1;
        Ok(())
    }

    fn two_bytes(&mut self, number: u16) -> Result<(), NoRoom>
        ensures { Puts self.old self.new (two number) result }
    {
        let [high, low] = number.to_be_bytes();
        self.put(high)?;
        self.put(low)
    }

    // A first byte with a number of two bytes.
    pub(crate) fn command(&mut self, byte: u8, number: u16) -> Result<(), NoRoom>
        ensures { Puts self.old self.new (byte ∷ two number) result }
    {
        self.put(byte)?;
        self.two_bytes(number)
    }

    // An atom. Below, a variable and an unknown: each says what is put, and is one line.
    pub(crate) fn atom(&mut self, number: u16) -> Result<(), NoRoom>
        ensures { Puts self.old self.new (encoding Rules (atom number)) result }
    {
        self.command(ATOM, number)
    }

    pub(crate) fn variable(&mut self, number: u8) -> Result<(), NoRoom>
        ensures { Puts self.old self.new (encoding Rules (var number)) result }
    {
        self.put(VARIABLE)?;
        self.put(number)
    }

    pub(crate) fn unknown(&mut self, number: u16) -> Result<(), NoRoom>
        ensures { Puts self.old self.new (encoding Slips (var number)) result }
    {
        self.command(UNKNOWN, number)
    }
}

// What has a form in bytes.
pub(crate) trait Written {
    ghost bytes: { Self → List ℕ };

    // Puts the bytes, as far as there is room.
    fn put(&self, sink: &mut Sink) -> Result<(), NoRoom>
        ensures { Puts sink.old sink.new (bytes self.now) result };
}

// Puts the bytes into a sink over the buffer; how many there are, where it has room for them.
fn pass<W: Written>(what: &W, buffer: &mut [u8], writing: bool) -> Option<usize>
    ensures { Passed writing buffer.old buffer.new (W.bytes what.now) result }
{
    let mut sink = Sink {
        buffer,
        count: 0,
        writing,
    };
    what.put(&mut sink).ok()?;
    Some(sink.count)
}

// Counts the bytes first, and then writes them at the beginning of the buffer; how many there are. Where there are more
// than the buffer has room for, it stays as it was.
pub(crate) fn write<W: Written>(what: &W, buffer: &mut [u8]) -> Option<usize>
    ensures length { result ≡ fitting (W.bytes what.now) buffer.old }
    ensures buffer { buffer.new ≡ written (W.bytes what.now) buffer.old }
{
    pass(what, buffer, false)?;
    pass(what, buffer, true)
}

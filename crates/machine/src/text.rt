// The text: the bytes of rules and query in one table.
ghost use Rattle.std.specs.Prelude.{◌≡◌, ℕ, ◌+◌, ◌<◌, ◌≤◌, [], ◌++◌, length};
ghost use Rattle.terms.specs.Terms.{Term};
ghost use Rattle.bindings.specs.Texts.{Spans};

use arrayvec::ArrayVec;
use bindings::TermAt;
use grammar::bytes::{ATOM, VARIABLE};
use grammar::limits::MOST_BYTES;
use std::marker::Model;

// It lies inside the search; whoever reads it borrows it.
#[derive(Drop)]
pub(crate) struct Text {
    pub(crate) bytes: ArrayVec<u8, MOST_BYTES>,
}

impl Model for Text {
    ghost use Rattle.std.specs.Prelude.{◌≤◌, length};
    ghost use Rattle.machine.specs.Texts.{Text as Bytes};

    ghost Value = { Bytes };

    ghost view = { λ t. record { bytes = t.bytes.items } };

    ghost invariant = { λ t. length t.bytes.items ≤ 16384 };
}

impl Text {
    pub(crate) fn new() -> Text
        ensures { result.bytes ≡ [] }
    {
        Text {
            bytes: ArrayVec::new(),
        }
    }

    // How many bytes it has.
    pub(crate) fn len(&self) -> usize
        ensures value { result ≡ length self.now.bytes }
        ensures fits { result ≤ 16384 }
    {
        self.bytes.len()
    }

    // Its bytes.
    pub(crate) fn as_slice(&self) -> &[u8]
        ensures { result.now ≡ self.now.bytes }
    {
        self.bytes.as_slice()
    }

    // Puts bytes at the end.
    pub(crate) fn append(&mut self, bytes: &[u8])
        requires { length self.old.bytes + length bytes.now ≤ 16384 }
        ensures { self.new.bytes ≡ self.old.bytes ++ bytes.now }
    {
        self.bytes.try_extend_from_slice(bytes).unwrap();
    }

    // The place after the term that begins at `place`.
    pub(crate) fn end(&self, place: usize) -> usize
        requires { (t : Term) × (q : ℕ) × Spans self.now.bytes place t q }
        ensures { (t : Term) (q : ℕ) → Spans self.now.bytes place t q → result ≡ q }
    {
        term_end(self.as_slice(), place)
    }

    // The rest of a pair. It uses the bytes, and not `end`: a text tells its bound where its bytes are used.
    pub(crate) fn rest(&self, pair: TermAt) -> TermAt
        requires { (t : Term) × (q : ℕ) × Spans self.now.bytes (pair.place + 1) t q }
        ensures place { (t : Term) (q : ℕ) → Spans self.now.bytes (pair.place + 1) t q → result.place ≡ q }
        ensures level { result.level ≡ pair.level }
    {
        let place = term_end(self.bytes.as_slice(), pair.place as usize + 1);
        TermAt {
            place: place as u16,
            level: pair.level,
        }
    }
}

// The place after the term that begins at `place` of these bytes.
fn term_end(text: &[u8], place: usize) -> usize
    requires { (t : Term) × (q : ℕ) × Spans text.now place t q }
    ensures { (t : Term) (q : ℕ) → Spans text.now place t q → result ≡ q }
{
    match text[place] {
        ATOM => place + 3,
        VARIABLE => place + 2,
        _ => {
            let middle = term_end(text, place + 1);
            term_end(text, middle)
        }
    }
}

// The first part of a pair.
pub(crate) fn first(pair: TermAt) -> TermAt
    requires { pair.place < 65535 }
    ensures place { result.place ≡ pair.place + 1 }
    ensures level { result.level ≡ pair.level }
{
    TermAt {
        place: pair.place + 1,
        level: pair.level,
    }
}

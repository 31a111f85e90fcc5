// Where the rules of a book begin.
ghost use Rattle.std.specs.Prelude.{◌≡◌, ◌<◌, ◌≤◌, true, [], ◌∷◌, ◌++◌, length, slice_get};
ghost use Rattle.grammar.specs.Items.{book as grammar_book};
ghost use Rattle.grammar.specs.Texts.{all_bytes};
ghost use Rattle.books.specs.Begins.{rule_places};
ghost use Rattle.reading.specs.Views.{seen};

use grammar::faults::BookFault;
use grammar::limits::MOST_RULES;
use reading::books::{Book, Item};

const PLACES: usize = MOST_RULES as usize;

// The places of the first rules of a book. Callers are promised that a `RuleBook` is `Copy`, which an `ArrayVec` is not.
#[derive(Clone, Copy)]
pub(crate) struct Begins {
    count: u16,
    places: [u16; PLACES],
    ghost few: { count ≤ 1024 },
    ghost whole: { length places ≡ 1024 },
}

impl Begins {
    ghost use Rattle.stores.specs.Begun.{begun};

    fn new() -> Begins
        ensures { begun result ≡ [] }
    {
        Begins {
            count: 0,
            places: [0; PLACES],
        }
    }

    // Reads a book, and keeps where its rules begin.
    pub(crate) fn read(bytes: &[u8]) -> Result<Begins, BookFault>
        ensures value { seen begun result ≡ seen (rule_places 0) (grammar_book bytes.now) }
        ensures known { all_bytes bytes.now ≡ true }
    {
        let mut begins = Begins::new();
        let mut book = Book::open(bytes)?;
        while let Some(item) = book.item()? {
            if let Item::Rule(rule) = item {
                begins.push(rule.place as u16);
            }
        }
        Ok(begins)
    }

    fn push(&mut self, place: u16)
        requires { length (begun self.old) < 1024 }
        ensures { begun self.new ≡ begun self.old ++ place ∷ [] }
    {
        self.places[self.count as usize] = place;
        self.count += 1;
    }

    pub(crate) fn count(&self) -> u16
        ensures { result ≡ length (begun self.now) }
    {
        self.count
    }

    // Where a rule begins.
    pub(crate) fn place(&self, rule: u16) -> Option<u16>
        ensures { result ≡ slice_get (begun self.now) rule }
    {
        self.places[..self.count as usize]
            .get(rule as usize)
            .copied()
    }
}

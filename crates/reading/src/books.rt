// Books.
ghost use Rattle.std.specs.Prelude.{◌≡◌, ◌^◌, ◌<◌, drop};
ghost use Rattle.std.specs.Option.{option_map};
ghost use Rattle.grammar.specs.Items.{book as grammar_book};
ghost use Rattle.reading.specs.Views.{seen};
ghost use Rattle.reading.specs.Books.{rule_item_shown, sized_rule, item_view, book_view, opened, first_item, shown_first, item_count, sized_view, sized_first, next_of, after_item, rule_count};

use crate::commands::{Reader, one_byte};
use crate::headers::Header;
use crate::rules::Rule;
use grammar::bytes::{RULE, WORLD};
use grammar::faults::{BookFault, RuleFault};
use grammar::limits::{HEADER, MOST_BYTES, MOST_RULES, WORLD_SIZE};

// What a book is made of.
#[derive(Clone, Copy)]
pub enum Item<'a> {
    // a world, which covers the rules after it
    World { number: u8, place: usize },
    Rule(Rule<'a>),
}

// A book over the caller's bytes, with the place of the next item and the number of rules before it.
#[derive(Clone, Copy)]
pub struct Book<'a> {
    bytes: &'a [u8],
    place: usize,
    rules: u16,
}

// The rule that a reader stands at, after so many rules, and how many bytes it has.
fn rule_item<'a>(from: &Reader<'a>, rules: u16) -> Result<(Rule<'a>, usize), BookFault>
    ensures { seen sized_rule result ≡ rule_item_shown rules from.now.place (drop 1 from.now.bytes.now) }
{
    let in_rule = |fault: RuleFault| BookFault::Rule {
        number: rules,
        fault,
    };
    let header = Header::read(from)
        .map_err(RuleFault::from)
        .map_err(&in_rule)?;
    if rules >= MOST_RULES {
        return Err(BookFault::TooManyRules {
            place: from.place,
            number: rules,
        });
    }
    let rule = header.rule().map_err(&in_rule)?;
    Ok((rule, HEADER + usize::from(header.size)))
}

// The item that a reader stands at, after so many rules, and how many bytes it has.
fn item_at<'a>(from: &Reader<'a>, rules: u16) -> Result<Option<(Item<'a>, usize)>, BookFault>
    ensures { seen (option_map sized_view) result ≡ sized_first from.now.place (first_item rules from.now.place from.now.bytes.now) }
{
    let place = from.place;
    match from.bytes {
        [] => Ok(None),
        [RULE, ..] => {
            let (rule, size) = rule_item(from, rules)?;
            Ok(Some((Item::Rule(rule), size)))
        }
        [WORLD, operands @ ..] => {
            let number = one_byte(operands, place)?;
            Ok(Some((Item::World { number, place }, WORLD_SIZE)))
        }
        _ => Err(BookFault::NoItem { place }),
    }
}

impl Item<'_> {
    // How many rules it is.
    fn count(&self) -> u16
        ensures { result ≡ item_count (item_view self.now) }
    {
        match self {
            Item::World { .. } => 0,
            Item::Rule(_) => 1,
        }
    }
}

impl<'a> Book<'a> {
    // A book over these bytes, before its first item.
    pub fn open(bytes: &'a [u8]) -> Result<Book<'a>, BookFault>
        ensures { seen book_view result ≡ opened bytes.now }
    {
        if bytes.len() > MOST_BYTES {
            return Err(BookFault::TooLong);
        }
        Ok(Book {
            bytes,
            place: 0,
            rules: 0,
        })
    }

    // The place of the next item. A reader tells its own so too: one line of each.
    pub fn place(&self) -> usize
        ensures { result ≡ self.now.place }
    {
        self.place
    }

    // The number of rules before the next item.
    pub fn rules(&self) -> u16
        ensures { result ≡ self.now.rules }
    {
        self.rules
    }

    // The next item, or nothing at the end. A fault leaves the book where it was.
    pub fn item(&mut self) -> Result<Option<Item<'a>>, BookFault>
        ensures value { seen (option_map item_view) result ≡ shown_first self.old.place (next_of (book_view self.old)) }
        ensures after { book_view self.new ≡ after_item (book_view self.old) }
    {
        let next = Reader::from_place(self.bytes, self.place);
        let Some((item, size)) = item_at(&next, self.rules)? else {
            return Ok(None);
        };
        *self = Book {
            bytes: self.bytes,
            place: self.place + size,
            rules: self.rules + item.count(),
        };
        Ok(Some(item))
    }
}

// How many rules a book has.
pub fn count_rules(bytes: &[u8]) -> Result<u16, BookFault>
    ensures { result ≡ seen rule_count (grammar_book bytes.now) }
{
    let mut book = Book::open(bytes)?;
    while book.item()?.is_some() {}
    Ok(book.rules())
}
